// The public call for the pages of the plan from a given one on. It checks its file and its lent
// buffers itself.
ghost use Rattle.std.specs.Prelude.{◌≡◌, ◌∷◌, [], ℕ, length};
ghost use Rattle.std.proofs.Math.Option.{none};
ghost use Rattle.file_blocks.specs.Parse.{parse};
ghost use Rattle.plan_groups.specs.Groups.{HasRoom};
ghost use Rattle.plan_members.specs.Prepared.{HoldsPlan};
ghost use Rattle.call_frame.specs.Open.{IsOpen};
ghost use Rattle.call_frame.specs.Refusal.{answer_of};
ghost use Rattle.call_pages.specs.Calls.{pages_call, pages_numbers};
ghost use Rattle.call_pages.specs.Claims.{PageClaims};
ghost use Rattle.call_pages.specs.Steps.{AnswersPages};

use crate::text::{find_page, put_pages};
use call_frame::{Refusal, clear, open_file};
use plan_members::prepare;

// What is answered of some pages.
#[derive(Clone, Copy)]
pub struct PagesValues {
    // How many pages are written.
    pub count: u64,
    // How many bytes their texts have.
    pub length: u64,
}

// The pages from page k on of an accepted file with n blocks, by the plan in the work numbers.
fn answer_pages(
    file: &[u8],
    k: u64,
    work: &[u32],
    text: &mut [u8],
    n: usize,
) -> Result<PagesValues, Refusal>
    requires { HasRoom file.now work.now n }
    ensures answer { (limit : ℕ) → HoldsPlan file.now n limit work.now
        → AnswersPages limit k file.now result text.old text.new }
{
    let Some(p) = find_page(n, k) else {
        return Err(Refusal::NotFound);
    };
    let front = put_pages(text, file, work, n, k, p);
    if front.count == 0 {
        return Err(Refusal::ShortResult);
    }
    let count = front.count as u64;
    let length = front.length as u64;
    Ok(PagesValues { count, length })
}

// The pages from page k on of a file that is open, with n blocks.
fn make_pages(
    file: &[u8],
    limit: u64,
    k: u64,
    work: &mut [u32],
    text: &mut [u8],
    n: u32,
) -> Result<PagesValues, Refusal>
    requires { IsOpen file.now none 4 (length work.old) n }
    ensures answer { record {
      answer = answer_of result;
      work = work.new;
      results = text.new ∷ [];
    }
        ≡ pages_call limit k (parse file.now) work.old text.old }
{
    let size = n as usize;
    prepare(file, work, n, limit);
    let answer = answer_pages(file, k, work, text, size);
    clear(work, 4 * size);
    answer
}

// The pages from page k on of a file, its blocks grouped by a limit: as many whole ones as fit, one
// after another in the front of `text`. What `PageClaims` says holds of all pages of the file.
pub fn pages_of(
    file: &[u8],
    limit: u64,
    k: u64,
    work: &mut [u32],
    text: &mut [u8],
) -> Result<PagesValues, Refusal>
    ensures answer { record {
      answer = answer_of result;
      work = work.new;
      results = text.new ∷ [];
    }
        ≡ pages_call limit k (parse file.now) work.old text.old }
    ensures claims { PageClaims limit file.now }
{
    let open = open_file(file, None, 4, work.len())?;
    make_pages(file, limit, k, work, text, open.blocks)
}

// The pages from page k on of a file, and the numbers of the answer, of which 0 or the number of
// the refusal is returned.
pub fn pages_numbers(
    file: &[u8],
    limit: u64,
    k: u64,
    work: &mut [u32],
    text: &mut [u8],
    at: &mut u64,
    count: &mut u64,
    length: &mut u64,
) -> u32
    ensures answer { record {
      numbers = result ∷ at.new ∷ count.new ∷ length.new ∷ [];
      work = work.new;
      results = text.new ∷ [];
    }
        ≡ pages_numbers
        (pages_call limit k (parse file.now) work.old text.old) }
    ensures claims { PageClaims limit file.now }
{
    match pages_of(file, limit, k, work, text) {
        Ok(pages) => {
            *at = 0;
            *count = pages.count;
            *length = pages.length;
            0
        }
        Err(refusal) => {
            *at = refusal.place();
            *count = 0;
            *length = 0;
            refusal.number()
        }
    }
}
