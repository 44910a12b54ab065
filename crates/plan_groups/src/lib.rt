// The plan: which blocks share a group, in lent work numbers.
#![tactic(auto)]

mod groups;
mod limit;
mod links;
mod order;

pub use groups::{first_instrs, group_blocks, group_ordered};
pub use limit::PART_LIMIT;
