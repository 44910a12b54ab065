// The public call for the check of a file.
#![tactic(auto)]

ghost use Rattle.std.specs.Prelude.{◌≡◌, ◌∷◌, []};
ghost use Rattle.file_blocks.specs.Parse.{parse};
ghost use Rattle.call_check.specs.Calls.{check_call, check_numbers};

use call_frame::open_file;

// Whether a file is accepted, and how many blocks and instructions it has. The answer is 0, or the
// number of the refusal.
pub fn check_numbers(file: &[u8], at: &mut u64, blocks: &mut u64, instructions: &mut u64) -> u32
    ensures answer { result ∷ at.new ∷ blocks.new ∷ instructions.new ∷ []
        ≡ check_numbers (check_call (parse file.now)) }
{
    match open_file(file, None, 0, 0) {
        Ok(counts) => {
            *at = 0;
            *blocks = counts.blocks as u64;
            *instructions = counts.instructions as u64;
            0
        }
        Err(refusal) => {
            *at = refusal.place();
            *blocks = 0;
            *instructions = 0;
            refusal.number()
        }
    }
}
