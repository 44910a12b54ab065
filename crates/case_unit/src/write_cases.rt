// The section of a unit that is written.
// An error of the input or of the output is handed on: the input may then have been read, and a
// line printed, in part.
ghost use Rattle.std.specs.Prelude.{◌≡◌, ◌∷◌, [], ◌≤◌, IfOk};
ghost use Rattle.file_blocks.specs.Parse.{parse};
ghost use Rattle.plan_groups.specs.Limit.{part_limit};
ghost use Rattle.call_unit.specs.Calls.{write_call, write_numbers};
ghost use Rattle.case_lent.specs.Left.{same_left};
ghost use Rattle.case_unit.specs.UnitCases.{write_call_leaves};

use call_answers::Told;
use call_unit::write_numbers;
use case_io::broken::Broken;
use case_io::compare::same_told;
use case_io::input;
use case_io::section::Section;
use case_lent::{LONGEST, Lent, TEXT, WORK, at_most, same, whole};
use plan_groups::PART_LIMIT;
use std::io;

// What a vector asks for, and how much it lends.
#[derive(Clone, Copy)]
struct Asked {
    // The wished bytes of a unit.
    size: u64,
    // What is given for the unit.
    given: Told,
    // How many work numbers are lent.
    work: usize,
    // How many bytes of text are lent.
    text: usize,
    ghost fits: { (work ≤ 576) × (text ≤ 65600) },
}

// The refusal's number or 0, and its i.
fn answer(file: &[u8], max: u64, given: Told, work: &mut [u32], text: &mut [u8]) -> [u64; 2]
    ensures { record { numbers = result; work = work.new; results = text.new ∷ [] }
        ≡ write_numbers
        (write_call part_limit max given (parse file.now) work.old
        text.old) }
{
    let mut at: u64 = 0;
    let number = write_numbers(file, PART_LIMIT, max, given, work, text, &mut at);
    [u64::from(number), at]
}

// Whether the call answers the expected numbers and leaves what is expected. The first of these
// that is not so is printed.
fn is_right<W: io::Write>(
    out: &mut W,
    k: u64,
    asked: Asked,
    file: &[u8],
    expected: &[u64; 2],
    left: &Lent<TEXT>,
    work: &mut [u32; WORK],
    text: &mut [u8; TEXT],
) -> io::Result<bool>
    ensures { IfOk result (λ same. same ≡ same_left expected.now left.now.work left.now.text
        (write_call_leaves asked.size asked.given asked.work asked.text
        file.now work.old text.old)) }
{
    let got = answer(
        file,
        asked.size,
        asked.given,
        &mut work[..asked.work],
        &mut text[..asked.text],
    );
    if !same_told(out, Section::Write, k, expected, &got)? {
        return Ok(false);
    }
    if !same(out, Section::Write, k, &left.work, &work[..])? {
        return Ok(false);
    }
    same(out, Section::Write, k, &left.text, &text[..])
}

// Reads what vector `k` asks for, and how many work numbers the call is to clear.
fn read_asked<R: io::Read>(reader: &mut R) -> Result<(Asked, usize), Broken> {
    let numbers: [u64; 13] = input::array(reader)?;
    let [size, size_high, unit, unit_high, length, length_high, ..] = numbers;
    let [.., done, done_high, last, last_high, work, text, cleared] = numbers;
    let given = Told {
        unit: whole(unit, unit_high),
        length: whole(length, length_high),
        done: whole(done, done_high),
        last: whole(last, last_high),
    };
    let asked = Asked {
        size: whole(size, size_high),
        given,
        work: at_most(work, WORK - 1)?,
        text: at_most(text, TEXT - 1)?,
    };
    Ok((asked, cleared as usize))
}

// Reads vector `k` and tries it. After the answer it is said how many bytes of text are expected.
pub fn replay_one<R: io::Read, W: io::Write>(
    reader: &mut R,
    out: &mut W,
    k: u64,
) -> Result<bool, Broken> {
    let (asked, cleared) = read_asked(reader)?;
    let [number, at, length]: [u64; 3] = input::array(reader)?;
    let mut buffer = [0u8; LONGEST];
    let n = input::file(reader, &mut buffer)?;
    let length = at_most(length, TEXT)?;
    let mut left: Lent<TEXT> = Lent::new(cleared);
    let mut lent = left.uncleared();
    input::bytes(reader, &mut left.text[..length])?;
    let expected = [number, at];
    Ok(is_right(
        out,
        k,
        asked,
        &buffer[..n],
        &expected,
        &left,
        &mut lent.work,
        &mut lent.text,
    )?)
}
