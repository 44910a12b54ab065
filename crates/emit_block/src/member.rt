// Where a block stands in the plan, and whether a transfer from it stays in its group.
ghost use Rattle.std.specs.Prelude.{◌≡◌, ℕ, List};
ghost use Rattle.base_lists.specs.Lists.{among};
ghost use Rattle.emit_block.specs.Walk.{IsMember, HasBlock};

use file_blocks::BlockRecord;
use plan_members::{Rows, in_group};

// A block, as it stands in the plan.
#[derive(Clone, Copy)]
pub struct Member {
    // Its number.
    pub index: usize,
    // The rows of its group.
    pub rows: Rows,
    // Its place among the members of the group.
    pub place: usize,
    // Whether the group has other blocks.
    pub several: bool,
}

// A block of a group that was found, as the walk over its records has it.
#[derive(Clone, Copy)]
pub(crate) struct MemberBlock {
    pub member: Member,
    pub block: BlockRecord,
    // The number of its first instruction.
    pub first: usize,
}

// Whether a transfer to a key is a goto. A lone block has none.
pub(crate) fn is_inside(file: &[u8], work: &[u32], m: Member, key: u32) -> bool
    requires { HasBlock file.now work.now m }
    ensures { (ks : List ℕ) → IsMember file.now work.now m ks → among key ks ≡ result }
{
    if m.several {
        in_group(file, work, m.rows, m.place, key)
    } else {
        false
    }
}
