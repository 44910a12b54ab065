// The public call for one page of the plan. It checks its file and its lent buffers itself.
ghost use Rattle.std.specs.Prelude.{◌≡◌, ◌∷◌, [], ℕ, length};
ghost use Rattle.std.proofs.Math.Option.{none};
ghost use Rattle.file_blocks.specs.Parse.{parse};
ghost use Rattle.plan_groups.specs.Groups.{HasRoom};
ghost use Rattle.plan_members.specs.Prepared.{HoldsPlan};
ghost use Rattle.call_frame.specs.Open.{IsOpen};
ghost use Rattle.call_frame.specs.Refusal.{answer_of};
ghost use Rattle.call_pages.specs.Calls.{page_call, page_numbers};
ghost use Rattle.call_pages.specs.Claims.{PageClaims};
ghost use Rattle.call_pages.specs.Steps.{AnswersPage};

use crate::text::{find_page, page_length, put_page};
use call_frame::{Refusal, clear, open_file};
use plan_members::prepare;

// Page k of an accepted file with n blocks, by the plan in the work numbers: how many bytes its text
// has.
fn answer_page(file: &[u8], k: u64, work: &[u32], text: &mut [u8], n: usize) -> Result<u64, Refusal>
    requires { HasRoom file.now work.now n }
    ensures answer { (limit : ℕ) → HoldsPlan file.now n limit work.now
        → AnswersPage limit k file.now result text.old text.new }
{
    let Some(p) = find_page(n, k) else {
        return Err(Refusal::NotFound);
    };
    let length = page_length(n, p);
    if text.len() < length {
        return Err(Refusal::ShortResult);
    }
    put_page(text, 0, file, work, n, k, p);
    Ok(length as u64)
}

// Page k of a file that is open, with n blocks.
fn make_page(
    file: &[u8],
    limit: u64,
    k: u64,
    work: &mut [u32],
    text: &mut [u8],
    n: u32,
) -> Result<u64, Refusal>
    requires { IsOpen file.now none 4 (length work.old) n }
    ensures answer { record {
      answer = answer_of result;
      work = work.new;
      results = text.new ∷ [];
    }
        ≡ page_call limit k (parse file.now) work.old text.old }
{
    let size = n as usize;
    prepare(file, work, n, limit);
    let answer = answer_page(file, k, work, text, size);
    clear(work, 4 * size);
    answer
}

// Page k of a file, its blocks grouped by a limit: its text in the front of `text`. What
// `PageClaims` says holds of all pages of the file.
pub fn page_of(
    file: &[u8],
    limit: u64,
    k: u64,
    work: &mut [u32],
    text: &mut [u8],
) -> Result<u64, Refusal>
    ensures answer { record {
      answer = answer_of result;
      work = work.new;
      results = text.new ∷ [];
    }
        ≡ page_call limit k (parse file.now) work.old text.old }
    ensures claims { PageClaims limit file.now }
{
    let open = open_file(file, None, 4, work.len())?;
    make_page(file, limit, k, work, text, open.blocks)
}

// Page k of a file, and the numbers of the answer, of which 0 or the number of the refusal is
// returned.
pub fn page_numbers(
    file: &[u8],
    limit: u64,
    k: u64,
    work: &mut [u32],
    text: &mut [u8],
    at: &mut u64,
    length: &mut u64,
) -> u32
    ensures answer { record {
      numbers = result ∷ at.new ∷ length.new ∷ [];
      work = work.new;
      results = text.new ∷ [];
    }
        ≡ page_numbers
        (page_call limit k (parse file.now) work.old text.old) }
    ensures claims { PageClaims limit file.now }
{
    match page_of(file, limit, k, work, text) {
        Ok(n) => {
            *at = 0;
            *length = n;
            0
        }
        Err(refusal) => {
            *at = refusal.place();
            *length = 0;
            refusal.number()
        }
    }
}
