// The exit list of a block.
#![tactic(auto)]

mod exits;

pub use exits::{Exits, block_exits, exits_at};
