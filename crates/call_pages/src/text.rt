// The texts of pages, and the rows on them.
ghost use Rattle.std.specs.Prelude.{◌≡◌, ℕ, ◌+◌, ◌*◌, ◌-◌, ◌≤◌, ◌<◌, min};
ghost use Rattle.base_text.specs.Wrote.{Wrote};
ghost use Rattle.file_blocks.specs.Parse.{blocks_of};
ghost use Rattle.plan_groups.specs.Groups.{HasRoom};
ghost use Rattle.plan_members.specs.Prepared.{HoldsPlan};
ghost use Rattle.call_pages.specs.Page.{per_page, page_text};
ghost use Rattle.call_pages.specs.Steps.{page_on, Begins, IsFoundPage, PutPages};

use crate::lines::{put_head, put_row};

// How many blocks make a page.
const PER_PAGE: usize = 60;

// How long a line is, with its newline.
const LINE: usize = 65;

// Some pages: how many they are, and the bytes of their texts in all.
#[derive(Clone, Copy)]
pub(crate) struct Front {
    pub count: usize,
    pub length: usize,
}

// The first row of page k, where there are n rows, if there is such a page.
pub(crate) fn find_page(n: usize, k: u64) -> Option<usize>
    requires { n ≤ 65536 }
    ensures { IsFoundPage n k result }
{
    if k == 0 {
        return None;
    }
    let last = (n + PER_PAGE - 1) / PER_PAGE;
    if (last as u64) < k {
        return None;
    }
    Some(PER_PAGE * (k - 1) as usize)
}

// How many rows the page has that begins at row p, where there are n rows.
fn rows_on(n: usize, p: usize) -> usize
    requires { p ≤ n }
    ensures { result ≡ min per_page (n - p) }
{
    if n - p < PER_PAGE {
        return n - p;
    }
    PER_PAGE
}

// How long the text of the page is that begins at row p, where there are n rows.
pub(crate) fn page_length(n: usize, p: usize) -> usize
    requires { p ≤ n }
    ensures { result ≡ 65 * (1 + min per_page (n - p)) }
{
    LINE * (1 + rows_on(n, p))
}

// Page k, which begins at row p: its head, and the lines of its rows.
pub(crate) fn put_page(
    out: &mut [u8],
    at: usize,
    file: &[u8],
    work: &[u32],
    n: usize,
    k: u64,
    p: usize,
) -> usize
    requires { HasRoom file.now work.now n × (p ≤ n) }
    ensures { (limit : ℕ) → HoldsPlan file.now n limit work.now
        → Wrote out.old at
        (page_text (blocks_of file.now) (page_on limit (blocks_of file.now) k p))
        out.new result }
{
    let rows = rows_on(n, p);
    let mut next = put_head(out, at, k);
    for i in 0..rows {
        next = put_row(out, next, file, work, n, p + i);
    }
    next
}

// The pages from page k on, which begins at row p: as many whole ones as fit, one after another in
// the front of `text`.
pub(crate) fn put_pages(
    text: &mut [u8],
    file: &[u8],
    work: &[u32],
    n: usize,
    k: u64,
    p: usize,
) -> Front
    requires { HasRoom file.now work.now n × Begins n k p }
    ensures { (limit : ℕ) → HoldsPlan file.now n limit work.now
        → PutPages file.now limit k text.old text.new result }
{
    let mut count = 0;
    let mut length = 0;
    let mut row = p;
    while row < n {
        let size = page_length(n, row);
        if text.len() - length < size {
            return Front { count, length };
        }
        put_page(text, length, file, work, n, k + count as u64, row);
        count += 1;
        length += size;
        row += PER_PAGE;
    }
    Front { count, length }
}
