// Blocks in the order of their keys: the order as a list of block numbers, the first block whose
// key is equal to an earlier one, and the block with a key.
#![tactic(auto)]

mod find;
mod keys;
mod sorting;

pub use find::{find_key, first_repeated, first_repeated_alone};
pub use sorting::order_blocks;
