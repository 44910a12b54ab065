// The section of the check: block files, each with the numbers that the check must answer.
// An error of the input or of the output is handed on: the input may then have been read, and a
// line printed, in part.
ghost use Rattle.std.specs.Prelude.{◌≡◌, IfOk};
ghost use Rattle.file_blocks.specs.Parse.{parse};
ghost use Rattle.case_io.specs.Same.{same_numbers};
ghost use Rattle.call_check.specs.Calls.{check_call, check_numbers};

use crate::LONGEST;
use call_check::check_numbers;
use case_io::broken::Broken;
use case_io::compare::same_told;
use case_io::input;
use case_io::section::Section;
use std::io;

// What the check answers: the refusal's number or 0, its i, the blocks, the instructions.
fn answer(file: &[u8]) -> [u64; 4]
    ensures { result ≡ check_numbers (check_call (parse file.now)) }
{
    let mut at: u64 = 0;
    let mut blocks: u64 = 0;
    let mut instructions: u64 = 0;
    let number = check_numbers(file, &mut at, &mut blocks, &mut instructions);
    [u64::from(number), at, blocks, instructions]
}

// Whether the check answers all the expected numbers. Where it does not, both answers are printed.
fn is_right<W: io::Write>(out: &mut W, k: u64, expected: &[u64; 4], file: &[u8]) -> io::Result<bool>
    ensures { IfOk result (λ same. same ≡ same_numbers expected.now
        (check_numbers (check_call (parse file.now)))) }
{
    same_told(out, Section::Check, k, expected, &answer(file))
}

// Reads vector `k` and tries it. The check is lent the file's bytes and not the rest of the buffer.
pub fn replay_one<R: io::Read, W: io::Write>(
    reader: &mut R,
    out: &mut W,
    k: u64,
) -> Result<bool, Broken> {
    let expected = input::array(reader)?;
    let mut buffer = [0u8; LONGEST];
    let n = input::file(reader, &mut buffer)?;
    Ok(is_right(out, k, &expected, &buffer[..n])?)
}
