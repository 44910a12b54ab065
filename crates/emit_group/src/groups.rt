// The functions of a group, from the rows where its members stand.
ghost use Rattle.std.specs.Prelude.{◌≡◌, List, ℕ, ◌+◌, ◌*◌, ◌≤◌, ◌<◌, length, get_or};
ghost use Rattle.base_text.specs.Wrote.{Wrote};
ghost use Rattle.file_blocks.specs.Parse.{blocks_of};
ghost use Rattle.plan_members.specs.Members.{members_of, group_keys, keys_within};
ghost use Rattle.emit_block.specs.Walk.{IsMember};
ghost use Rattle.plan_members.specs.GroupRows.{HasRows, HasRow, IsGroup};
ghost use Rattle.emit_group.specs.Groups.{member_text, labelled_text, members_text, group_text};

use emit_block::{Member, emit_block};
use emit_flow::put_label;
use emit_tables::{
    put_block_head, put_cases, put_forwarders, put_function_end, put_group_head, put_member_end,
    put_switch_end,
};
use plan_members::{Rows, row_block, row_key};

// Member k of the group in some rows; several: the group has others.
fn member_at(work: &[u32], rows: Rows, k: usize, several: bool) -> Member
    requires { (4 * rows.blocks ≤ length work.now) × (rows.blocks ≤ 65536)
        × (rows.end ≤ rows.blocks) × (rows.first + k < rows.end) }
    ensures row { (f : List ℕ) → HasRow f work.now rows k
        → HasRow f work.now result.rows result.place }
    ensures number { (f : List ℕ) (limit g : ℕ) → IsGroup f limit work.now g rows
        → result.index ≡ get_or (members_of limit (blocks_of f) g) k 0 }
    ensures stands { (f : List ℕ) (limit g : ℕ) → IsGroup f limit work.now g rows
        → IsMember f work.now result (keys_within several limit f g) }
{
    Member {
        index: row_block(work, rows.first + k),
        rows,
        place: k,
        several,
    }
}

// The code of a block.
fn put_code(out: &mut [u8], at: usize, file: &[u8], work: &[u32], m: Member, hashing: bool) -> usize
    requires { HasRow file.now work.now m.rows m.place }
    ensures { (ks : List ℕ) → IsMember file.now work.now m ks
        → Wrote out.old at (member_text hashing file.now ks m.index)
        out.new result }
{
    if m.index < m.rows.blocks {
        emit_block(out, at, file, work, m, hashing)
    } else {
        at
    }
}

// The function of the lone block of a group, which has one row.
fn put_lone(
    out: &mut [u8],
    at: usize,
    file: &[u8],
    work: &[u32],
    rows: Rows,
    hashing: bool,
) -> usize
    requires { HasRows file.now work.now rows }
    ensures { (limit g : ℕ) → IsGroup file.now limit work.now g rows
        → rows.end ≡ rows.first + 1
        → Wrote out.old at
        (group_text hashing file.now
        (members_of limit (blocks_of file.now) g)) out.new result }
{
    let a = put_block_head(out, at, row_key(file, work, rows.first));
    let m = member_at(work, rows, 0, false);
    let b = put_code(out, a, file, work, m, hashing);
    put_function_end(out, b)
}

// The label and the code of member k of the group of several in some rows.
fn put_member(
    out: &mut [u8],
    at: usize,
    file: &[u8],
    work: &[u32],
    rows: Rows,
    k: usize,
    hashing: bool,
) -> usize
    requires { HasRow file.now work.now rows k }
    ensures { (limit g : ℕ) → IsGroup file.now limit work.now g rows
        → Wrote out.old at
        (labelled_text hashing file.now (group_keys limit file.now g)
        (get_or (members_of limit (blocks_of file.now) g) k 0)) out.new result }
{
    let a = put_label(out, at, row_key(file, work, rows.first + k));
    let m = member_at(work, rows, k, true);
    let b = put_code(out, a, file, work, m, hashing);
    put_member_end(out, b)
}

// The labels and the code of the group of several in some rows.
fn put_members(
    out: &mut [u8],
    at: usize,
    file: &[u8],
    work: &[u32],
    rows: Rows,
    hashing: bool,
) -> usize
    requires { HasRows file.now work.now rows }
    ensures { (limit g : ℕ) → IsGroup file.now limit work.now g rows
        → Wrote out.old at
        (members_text hashing file.now (group_keys limit file.now g)
        (members_of limit (blocks_of file.now) g)) out.new result }
{
    let size = rows.end - rows.first;
    let mut q = at;
    for k in 0..size {
        q = put_member(out, q, file, work, rows, k, hashing);
    }
    q
}

// The functions of the group of several in some rows.
fn put_several(
    out: &mut [u8],
    at: usize,
    file: &[u8],
    work: &[u32],
    rows: Rows,
    hashing: bool,
) -> usize
    requires { HasRows file.now work.now rows }
    ensures { (limit g : ℕ) → IsGroup file.now limit work.now g rows
        → 2 ≤ length (members_of limit (blocks_of file.now) g)
        → Wrote out.old at
        (group_text hashing file.now
        (members_of limit (blocks_of file.now) g)) out.new result }
{
    let a = put_group_head(out, at, row_key(file, work, rows.first));
    let b = put_cases(out, a, file, work, rows);
    let c = put_switch_end(out, b);
    let d = put_members(out, c, file, work, rows, hashing);
    let e = put_function_end(out, d);
    put_forwarders(out, e, file, work, rows)
}

// The functions of the group in some rows, with its hashes or with 0 in their place.
pub fn emit_group(
    out: &mut [u8],
    at: usize,
    file: &[u8],
    work: &[u32],
    rows: Rows,
    hashing: bool,
) -> usize
    requires { HasRows file.now work.now rows }
    ensures { (limit g : ℕ) → IsGroup file.now limit work.now g rows
        → Wrote out.old at
        (group_text hashing file.now
        (members_of limit (blocks_of file.now) g)) out.new result }
{
    if rows.end - rows.first == 1 {
        put_lone(out, at, file, work, rows, hashing)
    } else {
        put_several(out, at, file, work, rows, hashing)
    }
}
