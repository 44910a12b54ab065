// The lines of a page: its head, and one for each row of the plan.
ghost use Rattle.std.specs.Prelude.{◌≡◌, ℕ, ◌≤◌, ◌<◌};
ghost use Rattle.base_text.specs.Doc.{text, dec, ◌▸◌, spaces};
ghost use Rattle.base_text.specs.Wrote.{Wrote};
ghost use Rattle.file_blocks.specs.Parse.{blocks_of};
ghost use Rattle.plan_exits.specs.Exits.{keys_of};
ghost use Rattle.plan_groups.specs.Groups.{HasRoom};
ghost use Rattle.plan_members.specs.Prepared.{HoldsPlan};
ghost use Rattle.call_pages.specs.Page.{left_in, right_in, keys_text, page_line, head_line};
ghost use Rattle.call_pages.specs.Page.{row_line};
ghost use Rattle.call_pages.specs.Steps.{row_at};

use file_blocks::{block_at, key_of};
use plan_exits::{Exits, exits_at};
use plan_members::{first_of, row_block, row_group};

// k blanks, at most as many as a line has.
fn put_spaces(out: &mut [u8], at: usize, k: usize) -> usize
    requires { k ≤ 64 }
    ensures { Wrote out.old at (spaces k) out.new result }
{
    let blanks = [b' '; 64];
    base_text::put(out, at, &blanks[..k])
}

// A number at the right of a field.
fn put_right(out: &mut [u8], at: usize, width: usize, n: u64) -> usize
    requires { width ≤ 64 }
    ensures { Wrote out.old at (right_in width (dec n)) out.new result }
{
    let mut nothing = [0u8; 0];
    let digits = base_text::put_dec(&mut nothing, 0, n);
    if width <= digits {
        return base_text::put_dec(out, at, n);
    }
    let p = put_spaces(out, at, width - digits);
    base_text::put_dec(out, p, n)
}

// The exits of a line, and the blanks after them.
fn put_exits(out: &mut [u8], at: usize, exits: Exits) -> usize
    ensures { Wrote out.old at (left_in 17 (keys_text (keys_of exits)) ▸ spaces 24 ▸ text "\n")
        out.new result }
{
    match exits {
        Exits::None => base_text::put(out, at, b"                                         \n"),
        Exits::One(k) => {
            let p = base_text::put_hex8(out, at, k);
            base_text::put(out, p, b"                                 \n")
        }
        Exits::Two(k, l) => {
            let p = base_text::put_hex8(out, at, k);
            let q = base_text::put_then_hex8(out, p, b" ", l);
            base_text::put(out, q, b"                        \n")
        }
    }
}

// A line: key, group, instruction count, exits.
fn put_line(out: &mut [u8], at: usize, key: u32, group: u32, count: u32, exits: Exits) -> usize
    ensures { Wrote out.old at (page_line key group count (keys_of exits)) out.new result }
{
    let p = base_text::put_hex8(out, at, key);
    let q = base_text::put(out, p, b" ");
    let s = put_right(out, q, 6, group as u64);
    let t = base_text::put(out, s, b" ");
    let u = put_right(out, t, 6, count as u64);
    let v = base_text::put(out, u, b" ");
    put_exits(out, v, exits)
}

// The head of page k.
pub(crate) fn put_head(out: &mut [u8], at: usize, k: u64) -> usize
    ensures { Wrote out.old at (head_line k) out.new result }
{
    let p = put_right(out, at, 64, k);
    base_text::put(out, p, b"\n")
}

// The line of row p of the plan in the work numbers.
pub(crate) fn put_row(
    out: &mut [u8],
    at: usize,
    file: &[u8],
    work: &[u32],
    n: usize,
    p: usize,
) -> usize
    requires { HasRoom file.now work.now n × (p < n) }
    ensures { (limit : ℕ) → HoldsPlan file.now n limit work.now
        → Wrote out.old at
        (row_line (blocks_of file.now) (row_at limit (blocks_of file.now) p))
        out.new result }
{
    let i = row_block(work, p);
    let Some(block) = block_at(file, i) else {
        return at;
    };
    let exits = exits_at(file, block, first_of(work, n, i));
    let key = key_of(block.addr, block.thumb);
    put_line(out, at, key, row_group(work, n, p), block.count, exits)
}
