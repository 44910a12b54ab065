// The search for a block by its key: where an edge leads.
#![tactic(auto)]

ghost use Rattle.std.specs.Prelude.{◌≡◌, ◌<◌};
ghost use Rattle.file_records.specs.Trailer.{block_count};
ghost use Rattle.file_blocks.specs.Parse.{Accepted, blocks_of};
ghost use Rattle.file_keys.specs.Order.{block_keys, key_order};
ghost use Rattle.file_keys.specs.Answers.{number_of};
ghost use Rattle.file_keys.specs.First.{block_with};
ghost use Rattle.plan_search.specs.Target.{on_page8, target};
ghost use Rattle.plan_search.specs.Search.{has_key, TargetInside};

use file_blocks::block_at;
use file_keys::find_key;
use file_records::block_record::key_plus;

// Whether edges join blocks at an address: those whose page is exactly 8.
pub fn on_page_8(addr: u32) -> bool
    ensures { result ≡ on_page8 addr }
{
    addr / 16777216 == 8
}

// Whether there is a block i and it has a key.
fn has_key(file: &[u8], i: usize, key: u32) -> bool
    requires { Accepted file.now }
    ensures { result ≡ has_key file.now i key }
{
    let Some(block) = block_at(file, i) else {
        return false;
    };
    key_plus(block.addr, block.thumb) == key as u64
}

// The block with a key, an exit of block i, by the order of all blocks. Most exits lead to the
// block after block i, so that one is looked at first: no other has its key. The search begins at
// place i of the order, where block i stands if keys rise.
fn block_with(file: &[u8], order: &[u32], key: u32, i: usize) -> Option<usize>
    requires accepted { Accepted file.now × (order.now ≡ key_order (block_keys file.now)) }
    requires i_bound { i < block_count file.now }
    ensures { number_of result ≡ block_with key (block_keys file.now) }
{
    let next = i + 1;
    if has_key(file, next, key) {
        return Some(next);
    }
    let j = find_key(file, order, key as u64, i)?;
    Some(j as usize)
}

// The block of page 8 with a key, an exit of block i, by the order of all blocks.
pub fn find_target(file: &[u8], order: &[u32], key: u32, i: usize) -> Option<usize>
    requires accepted { Accepted file.now × (order.now ≡ key_order (block_keys file.now)) }
    requires i_bound { i < block_count file.now }
    ensures inside { TargetInside file.now result }
    ensures found { number_of result ≡ target key (blocks_of file.now) 0 }
{
    let j = block_with(file, order, key, i)?;
    let block = block_at(file, j)?;
    if on_page_8(block.addr) { Some(j) } else { None }
}
