// The C form of the check.
ghost use Rattle.std.specs.Prelude.{◌≡◌, ◌∷◌, []};
ghost use Rattle.file_blocks.specs.Parse.{parse};
ghost use Rattle.call_check.specs.Calls.{check_call, check_numbers};

// Whether a file is accepted, and how many blocks and instructions it has. The answer is 0, or the
// number of the refusal.
#[unsafe(no_mangle)]
pub extern "C" fn recomp_check(
    file: &[u8],
    at: &mut u64,
    blocks: &mut u64,
    instructions: &mut u64,
) -> u32
    ensures answer { result ∷ at.new ∷ blocks.new ∷ instructions.new ∷ []
        ≡ check_numbers (check_call (parse file.now)) }
{
    call_check::check_numbers(file, at, blocks, instructions)
}
