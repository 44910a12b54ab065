// The section of the lengths of the units from one on.
// An error of the input or of the output is handed on: the input may then have been read, and a
// line printed, in part.
ghost use Rattle.std.specs.Prelude.{◌≡◌, ◌∷◌, [], ◌≤◌, IfOk};
ghost use Rattle.file_blocks.specs.Parse.{parse};
ghost use Rattle.plan_groups.specs.Limit.{part_limit};
ghost use Rattle.call_units.specs.Calls.{lengths_call, lengths_numbers};
ghost use Rattle.case_fronts.specs.FrontCases.{lengths_call_leaves, same_lengths};

use crate::Asked;
use call_units::lengths_numbers;
use case_io::broken::Broken;
use case_io::compare::same_told;
use case_io::input;
use case_io::section::Section;
use case_lent::{LENGTHS, LONGEST, Lent, WORK, at_most, same, whole};
use plan_groups::PART_LIMIT;
use std::io;

// The refusal's number or 0, its i, how many lengths there are, the blocks done, and 1 for the last
// unit.
fn answer(file: &[u8], max: u64, first: u64, work: &mut [u32], lengths: &mut [u64]) -> [u64; 5]
    ensures { record { numbers = result; work = work.new; results = lengths.new ∷ [] }
        ≡ lengths_numbers
        (lengths_call (record { limit = part_limit; max = max; first = first })
        (parse file.now) work.old lengths.old) }
{
    let asked = call_units::Asked {
        limit: PART_LIMIT,
        max,
        first,
    };
    let mut at: u64 = 0;
    let mut count: u64 = 0;
    let mut done: u64 = 0;
    let mut last: u64 = 0;
    let number = lengths_numbers(
        file, asked, work, lengths, &mut at, &mut count, &mut done, &mut last,
    );
    [u64::from(number), at, count, done, last]
}

// Whether the call answers all the expected numbers and leaves what is expected. The first of these
// that is not so is printed.
fn is_right<W: io::Write>(
    out: &mut W,
    k: u64,
    asked: Asked,
    file: &[u8],
    expected: &[u64; 5],
    left: &Lent<0>,
    work: &mut [u32; WORK],
    lengths: &mut [u64; LENGTHS],
) -> io::Result<bool>
    ensures { IfOk result (λ same. same
        ≡ same_lengths expected.now left.now.work left.now.lengths
        (lengths_call_leaves asked file.now work.old lengths.old)) }
{
    let got = answer(
        file,
        asked.size,
        asked.first,
        &mut work[..asked.work],
        &mut lengths[..asked.lengths],
    );
    if !same_told(out, Section::Lengths, k, expected, &got)? {
        return Ok(false);
    }
    if !same(out, Section::Lengths, k, &left.work, &work[..])? {
        return Ok(false);
    }
    same_told(out, Section::Lengths, k, &left.lengths, &lengths[..])
}

// Reads vector `k` and tries it.
pub fn replay_one<R: io::Read, W: io::Write>(
    reader: &mut R,
    out: &mut W,
    k: u64,
) -> Result<bool, Broken> {
    let [size, size_high, first, first_high, work, lengths, cleared]: [u64; 7] = input::array(
        reader,
    )?;
    let asked = Asked {
        size: whole(size, size_high),
        first: whole(first, first_high),
        work: at_most(work, WORK - 1)?,
        text: 0,
        lengths: at_most(lengths, LENGTHS - 1)?,
    };
    let expected: [u64; 5] = input::array(reader)?;
    let mut buffer = [0u8; LONGEST];
    let n = input::file(reader, &mut buffer)?;
    let count = at_most(expected[2], LENGTHS)?;
    let mut left: Lent<0> = Lent::new(cleared as usize);
    let mut lent = left.uncleared();
    input::numbers(reader, &mut left.lengths[..count])?;
    Ok(is_right(
        out,
        k,
        asked,
        &buffer[..n],
        &expected,
        &left,
        &mut lent.work,
        &mut lent.lengths,
    )?)
}
