// The section of the units from one on.
// An error of the input or of the output is handed on: the input may then have been read, and a
// line printed, in part.
ghost use Rattle.std.specs.Prelude.{◌≡◌, ◌∷◌, [], ◌≤◌, IfOk};
ghost use Rattle.file_blocks.specs.Parse.{parse};
ghost use Rattle.plan_groups.specs.Limit.{part_limit};
ghost use Rattle.call_units.specs.Calls.{units_call, units_numbers};
ghost use Rattle.case_fronts.specs.FrontCases.{units_call_leaves, same_front};

use crate::Asked;
use call_units::units_numbers;
use case_io::broken::Broken;
use case_io::compare::same_told;
use case_io::input;
use case_io::section::Section;
use case_lent::{LENGTHS, LONGEST, Lent, TEXT, WORK, at_most, same, whole};
use plan_groups::PART_LIMIT;
use std::io;

// The refusal's number or 0, its i, how many units there are, their bytes in all, the blocks done,
// and 1 for the last unit.
fn answer(
    file: &[u8],
    max: u64,
    first: u64,
    work: &mut [u32],
    text: &mut [u8],
    lengths: &mut [u64],
) -> [u64; 6]
    ensures { record {
      numbers = result;
      work = work.new;
      results = text.new ∷ lengths.new ∷ [];
    }
        ≡ units_numbers
        (units_call (record { limit = part_limit; max = max; first = first })
        (parse file.now) work.old text.old
        lengths.old) }
{
    let asked = call_units::Asked {
        limit: PART_LIMIT,
        max,
        first,
    };
    let mut at: u64 = 0;
    let mut count: u64 = 0;
    let mut length: u64 = 0;
    let mut done: u64 = 0;
    let mut last: u64 = 0;
    let number = units_numbers(
        file,
        asked,
        work,
        text,
        lengths,
        &mut at,
        &mut count,
        &mut length,
        &mut done,
        &mut last,
    );
    [u64::from(number), at, count, length, done, last]
}

// Whether the call answers all the expected numbers and leaves what is expected. The first of these
// that is not so is printed.
fn is_right<W: io::Write>(
    out: &mut W,
    k: u64,
    asked: Asked,
    file: &[u8],
    expected: &[u64; 6],
    left: &Lent<TEXT>,
    work: &mut [u32; WORK],
    text: &mut [u8; TEXT],
    lengths: &mut [u64; LENGTHS],
) -> io::Result<bool>
    ensures { IfOk result (λ same. same
        ≡ same_front expected.now left.now.work left.now.text left.now.lengths
        (units_call_leaves asked file.now work.old text.old lengths.old)) }
{
    let got = answer(
        file,
        asked.size,
        asked.first,
        &mut work[..asked.work],
        &mut text[..asked.text],
        &mut lengths[..asked.lengths],
    );
    if !same_told(out, Section::Fronts, k, expected, &got)? {
        return Ok(false);
    }
    if !same(out, Section::Fronts, k, &left.work, &work[..])? {
        return Ok(false);
    }
    if !same(out, Section::Fronts, k, &left.text, &text[..])? {
        return Ok(false);
    }
    same_told(out, Section::Fronts, k, &left.lengths, &lengths[..])
}

// Reads what vector `k` asks for, and how many work numbers the call is to clear.
fn read_asked<R: io::Read>(reader: &mut R) -> Result<(Asked, usize), Broken> {
    let [
        size,
        size_high,
        first,
        first_high,
        work,
        text,
        lengths,
        cleared,
    ]: [u64; 8] = input::array(reader)?;
    let asked = Asked {
        size: whole(size, size_high),
        first: whole(first, first_high),
        work: at_most(work, WORK - 1)?,
        text: at_most(text, TEXT - 1)?,
        lengths: at_most(lengths, LENGTHS - 1)?,
    };
    Ok((asked, cleared as usize))
}

// Reads vector `k` and tries it.
pub fn replay_one<R: io::Read, W: io::Write>(
    reader: &mut R,
    out: &mut W,
    k: u64,
) -> Result<bool, Broken> {
    let (asked, cleared) = read_asked(reader)?;
    let expected: [u64; 6] = input::array(reader)?;
    let mut buffer = [0u8; LONGEST];
    let n = input::file(reader, &mut buffer)?;
    let length = at_most(expected[3], TEXT)?;
    let count = at_most(expected[2], LENGTHS)?;
    let mut left: Lent<TEXT> = Lent::new(cleared);
    let mut lent = left.uncleared();
    input::bytes(reader, &mut left.text[..length])?;
    input::numbers(reader, &mut left.lengths[..count])?;
    Ok(is_right(
        out,
        k,
        asked,
        &buffer[..n],
        &expected,
        &left,
        &mut lent.work,
        &mut lent.text,
        &mut lent.lengths,
    )?)
}
