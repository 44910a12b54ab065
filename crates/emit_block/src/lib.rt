// The text of a block: the walk over its instructions, and the guard before them.
#![tactic(auto)]

mod block;
mod instrs;
mod member;
mod walk;

pub use block::emit_block;
pub use member::Member;
