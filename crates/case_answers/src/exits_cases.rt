// The section of the exits: block files, each with the number of a block and the numbers that the
// call for its exits must answer.
// An error of the input or of the output is handed on: the input may then have been read, and a
// line printed, in part.
ghost use Rattle.std.specs.Prelude.{◌≡◌, IfOk};
ghost use Rattle.file_blocks.specs.Parse.{parse};
ghost use Rattle.call_exits.specs.Calls.{exits_call, exits_numbers};
ghost use Rattle.case_io.specs.Same.{same_numbers};

use crate::LONGEST;
use call_exits::exits_numbers;
use case_io::broken::Broken;
use case_io::compare::same_told;
use case_io::input;
use case_io::section::Section;
use std::io;

// What the call answers: the refusal's number or 0, its i, how many keys, and the keys.
fn answer(file: &[u8], block: u64) -> [u64; 5]
    ensures { result ≡ exits_numbers (exits_call block (parse file.now)) }
{
    let mut at: u64 = 0;
    let mut count: u64 = 0;
    let mut first: u64 = 0;
    let mut second: u64 = 0;
    let number = exits_numbers(file, block, &mut at, &mut count, &mut first, &mut second);
    [u64::from(number), at, count, first, second]
}

// Whether the call answers all the expected numbers. Where it does not, both answers are printed.
fn is_right<W: io::Write>(
    out: &mut W,
    k: u64,
    expected: &[u64; 5],
    file: &[u8],
    block: u64,
) -> io::Result<bool>
    ensures { IfOk result (λ same. same ≡ same_numbers expected.now
        (exits_numbers (exits_call block (parse file.now)))) }
{
    same_told(out, Section::Exits, k, expected, &answer(file, block))
}

// Reads vector `k` and tries it. The call is lent the file's bytes and not the rest of the buffer.
pub fn replay_one<R: io::Read, W: io::Write>(
    reader: &mut R,
    out: &mut W,
    k: u64,
) -> Result<bool, Broken> {
    let block = input::number(reader)?;
    let expected = input::array(reader)?;
    let mut buffer = [0u8; LONGEST];
    let n = input::file(reader, &mut buffer)?;
    Ok(is_right(out, k, &expected, &buffer[..n], block)?)
}
