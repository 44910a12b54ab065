// How long a unit is at most, by the instructions of the longest group.
ghost use Rattle.std.specs.Prelude.{◌≡◌, ℕ, ◌+◌, ◌<◌, ◌≤◌, ◌^◌, min, length};
ghost use Rattle.base_text.specs.Wrote.{max_usize};
ghost use Rattle.file_blocks.specs.Parse.{blocks_of, Accepted};
ghost use Rattle.lower_units.specs.Units.{emit_group, text_of, bodies_of};
ghost use Rattle.plan_groups.specs.Groups.{HasRoom};
ghost use Rattle.plan_members.specs.Members.{members_of};
ghost use Rattle.plan_members.specs.Prepared.{HoldsPlan};
ghost use Rattle.plan_members.specs.GroupRows.{HasRows, IsGroup};
ghost use Rattle.emit_group.specs.Groups.{file_bodies};
ghost use Rattle.emit_units.specs.Bounds.{IsBlockBound, Bounds};

use file_blocks::block_at;
use plan_members::{Rows, group_end, row_block};

// What a block adds to the text of its group at most: 700 bytes, and 2,600 for each instruction.
fn block_bound(file: &[u8], i: usize) -> usize
    ensures small { result < 2 ^ 44 }
    ensures bound { IsBlockBound file.now i result }
{
    let Some(block) = block_at(file, i) else {
        return 0;
    };
    700 + 2600 * block.count as usize
}

// How long the text of the group in some rows is at most.
fn group_bound(file: &[u8], work: &[u32], rows: Rows) -> usize
    requires { HasRows file.now work.now rows }
    ensures small { result ≤ 2 ^ 60 }
    ensures bound { (limit g : ℕ) → IsGroup file.now limit work.now g rows
        → length
        (text_of (emit_group (bodies_of (file_bodies file.now)
        (members_of limit (blocks_of file.now) g)))) ≤ result }
{
    let size = rows.end - rows.first;
    let mut bound = 0;
    for k in 0..size {
        bound += block_bound(file, row_block(work, rows.first + k));
    }
    bound
}

// The sum of two numbers, or the largest number where that is less.
fn sum(a: u64, b: usize) -> usize
    ensures { result ≡ min (a + «b») max_usize }
{
    if usize::MAX - b < a as usize {
        return usize::MAX;
    }
    a as usize + b
}

// How long a unit is at most, in an accepted file with n blocks: PREAMBLE, the wished size, the
// longest group, and the end of the last unit.
pub(crate) fn unit_bound(file: &[u8], work: &[u32], n: usize, max: u64) -> usize
    requires has_room { HasRoom file.now work.now n }
    requires accepted { Accepted file.now }
    ensures { (limit : ℕ) → HoldsPlan file.now n limit work.now
        → Bounds file.now limit max result }
{
    let mut most = 0;
    let mut p = 0;
    // No index loop: the next group begins where `group_end` says.
    while p < n {
        let rows = Rows {
            blocks: n,
            first: p,
            end: group_end(work, n, p),
        };
        let bound = group_bound(file, work, rows);
        if most < bound {
            most = bound;
        }
        p = rows.end;
    }
    sum(max, 4200 + 100 * n + most)
}
