// The keys of blocks, by their numbers and by the rows of a plan.
ghost use Rattle.std.specs.Prelude.{◌≡◌, ℕ, ◌<◌, length, get_or};
ghost use Rattle.file_blocks.specs.Parse.{Accepted};
ghost use Rattle.file_keys.specs.Order.{block_keys};
ghost use Rattle.plan_members.specs.Members.{group_keys};
ghost use Rattle.plan_members.specs.GroupRows.{IsRow};

use crate::rows::row_block;
use file_blocks::{block_at, key_of};

// The key of block i, or 0 where there is none.
pub fn block_key(file: &[u8], i: usize) -> u32
    ensures { Accepted file.now → result ≡ get_or (block_keys file.now) i 0 }
{
    let Some(block) = block_at(file, i) else {
        return 0;
    };
    key_of(block.addr, block.thumb)
}

// The key of the block in row p.
pub fn row_key(file: &[u8], work: &[u32], p: usize) -> u32
    requires { p < length work.now }
    ensures { (n limit g k : ℕ) → IsRow file.now n limit work.now g k p
        → result ≡ get_or (group_keys limit file.now g) k 0 }
{
    block_key(file, row_block(work, p))
}
