// The section of a unit that is measured.
// An error of the input or of the output is handed on: the input may then have been read, and a
// line printed, in part.
ghost use Rattle.std.specs.Prelude.{◌≡◌, [], ◌≤◌, IfOk};
ghost use Rattle.file_blocks.specs.Parse.{parse};
ghost use Rattle.plan_groups.specs.Limit.{part_limit};
ghost use Rattle.call_unit.specs.Calls.{measure_call, measure_numbers};
ghost use Rattle.case_unit.specs.UnitCases.{measure_call_leaves, same_measured};

use call_unit::measure_numbers;
use case_io::broken::Broken;
use case_io::compare::same_told;
use case_io::input;
use case_io::section::Section;
use case_lent::{LONGEST, Lent, WORK, at_most, same, whole};
use plan_groups::PART_LIMIT;
use std::io;

// What a vector asks for, and how much it lends.
#[derive(Clone, Copy)]
struct Asked {
    // The wished bytes of a unit.
    size: u64,
    // The unit's number.
    unit: u64,
    // How many work numbers are lent.
    work: usize,
    ghost fits: { work ≤ 576 },
}

// The refusal's number or 0, its i, the unit's number, its length, the blocks done, and 1 for the
// last unit.
fn answer(file: &[u8], max: u64, k: u64, work: &mut [u32]) -> [u64; 6]
    ensures { record { numbers = result; work = work.new; results = [] }
        ≡ measure_numbers
        (measure_call part_limit max k (parse file.now) work.old) }
{
    let mut at: u64 = 0;
    let mut unit: u64 = 0;
    let mut length: u64 = 0;
    let mut done: u64 = 0;
    let mut last: u64 = 0;
    let number = measure_numbers(
        file,
        PART_LIMIT,
        max,
        k,
        work,
        &mut at,
        &mut unit,
        &mut length,
        &mut done,
        &mut last,
    );
    [u64::from(number), at, unit, length, done, last]
}

// Whether the call answers all the expected numbers and leaves the expected work numbers. The first
// of these that is not so is printed.
fn is_right<W: io::Write>(
    out: &mut W,
    k: u64,
    asked: Asked,
    file: &[u8],
    expected: &[u64; 6],
    left: &Lent<0>,
    work: &mut [u32; WORK],
) -> io::Result<bool>
    ensures { IfOk result (λ same. same ≡ same_measured expected.now left.now.work
        (measure_call_leaves asked.size asked.unit asked.work file.now work.old)) }
{
    let got = answer(file, asked.size, asked.unit, &mut work[..asked.work]);
    Ok(
        same_told(out, Section::Measure, k, expected, &got)?
            && same(out, Section::Measure, k, &left.work, &work[..])?,
    )
}

// Reads vector `k` and tries it. The unit's number may have 64 bits, in the answer too.
pub fn replay_one<R: io::Read, W: io::Write>(
    reader: &mut R,
    out: &mut W,
    k: u64,
) -> Result<bool, Broken> {
    let [size, size_high, unit, unit_high, work, cleared]: [u64; 6] = input::array(reader)?;
    let asked = Asked {
        size: whole(size, size_high),
        unit: whole(unit, unit_high),
        work: at_most(work, WORK - 1)?,
    };
    let [number, at, unit, unit_high, length, done, last]: [u64; 7] = input::array(reader)?;
    let expected = [number, at, whole(unit, unit_high), length, done, last];
    let mut buffer = [0u8; LONGEST];
    let n = input::file(reader, &mut buffer)?;
    let left: Lent<0> = Lent::new(cleared as usize);
    let mut lent = left.uncleared();
    Ok(is_right(
        out,
        k,
        asked,
        &buffer[..n],
        &expected,
        &left,
        &mut lent.work,
    )?)
}
