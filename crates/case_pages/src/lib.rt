// The sections of one page of the plan and of the pages from one on: block files, each with the
// page asked for and how much to lend, and what the call must answer and leave in what it was lent.
// An error of the input or of the output is handed on: the input may then have been read, and a
// line printed, in part.
#![tactic(auto)]

ghost use Rattle.std.specs.Prelude.{◌≡◌, ◌∷◌, [], ◌≤◌, IfOk};
ghost use Rattle.file_blocks.specs.Parse.{parse};
ghost use Rattle.case_lent.specs.Left.{same_left};
ghost use Rattle.case_pages.specs.PageCases.{hands_over, page_call_leaves};

mod asked;

use asked::Asked;
pub use asked::Pages;
use call_pages::{page_numbers, pages_numbers};
use case_io::broken::Broken;
use case_io::compare::same_told;
use case_io::input;
use case_io::section::Section;
use case_lent::{LONGEST, Lent, TEXT, WORK, at_most, same, whole};
use plan_groups::PART_LIMIT;
use std::io;

// The section of a call.
fn section_of(pages: Pages) -> Section {
    match pages {
        Pages::One => Section::Page,
        Pages::From => Section::Pages,
    }
}

// The refusal's number or 0, its i, how many pages there are, and their bytes in all. The call for
// one page does not say how many: it has 0 there.
fn answer(file: &[u8], pages: Pages, page: u64, work: &mut [u32], text: &mut [u8]) -> [u64; 4]
    ensures { record { numbers = result; work = work.new; results = text.new ∷ [] }
        ≡ hands_over pages page (parse file.now) work.old text.old }
{
    let mut at: u64 = 0;
    let mut count: u64 = 0;
    let mut length: u64 = 0;
    match pages {
        Pages::One => {
            let number = page_numbers(file, PART_LIMIT, page, work, text, &mut at, &mut length);
            [u64::from(number), at, 0, length]
        }
        Pages::From => {
            let number = pages_numbers(
                file,
                PART_LIMIT,
                page,
                work,
                text,
                &mut at,
                &mut count,
                &mut length,
            );
            [u64::from(number), at, count, length]
        }
    }
}

// Whether the call answers all the expected numbers and leaves what is expected. The first of these
// that is not so is printed.
fn is_right<W: io::Write>(
    out: &mut W,
    k: u64,
    asked: Asked,
    file: &[u8],
    expected: &[u64; 4],
    left: &Lent<TEXT>,
    work: &mut [u32; WORK],
    text: &mut [u8; TEXT],
) -> io::Result<bool>
    ensures { IfOk result (λ same. same ≡ same_left expected.now left.now.work left.now.text
        (page_call_leaves asked file.now work.old text.old)) }
{
    let section = section_of(asked.pages);
    let got = answer(
        file,
        asked.pages,
        asked.page,
        &mut work[..asked.work],
        &mut text[..asked.text],
    );
    if !same_told(out, section, k, expected, &got)? {
        return Ok(false);
    }
    if !same(out, section, k, &left.work, &work[..])? {
        return Ok(false);
    }
    same(out, section, k, &left.text, &text[..])
}

// Reads vector `k` of one of the two calls and tries it.
pub fn replay_one<R: io::Read, W: io::Write>(
    reader: &mut R,
    out: &mut W,
    k: u64,
    pages: Pages,
) -> Result<bool, Broken> {
    let [page, page_high, work, text, cleared]: [u64; 5] = input::array(reader)?;
    let asked = Asked {
        pages,
        page: whole(page, page_high),
        work: at_most(work, WORK - 1)?,
        text: at_most(text, TEXT - 1)?,
    };
    let expected: [u64; 4] = input::array(reader)?;
    let mut buffer = [0u8; LONGEST];
    let n = input::file(reader, &mut buffer)?;
    let length = at_most(expected[3], TEXT)?;
    let mut left: Lent<TEXT> = Lent::new(cleared as usize);
    let mut lent = left.uncleared();
    input::bytes(reader, &mut left.text[..length])?;
    Ok(is_right(
        out,
        k,
        asked,
        &buffer[..n],
        &expected,
        &left,
        &mut lent.work,
        &mut lent.text,
    )?)
}
