// The public call for the exits of a block.
#![tactic(auto)]

mod calls;

pub use calls::{exits_numbers, exits_of};
