// The public call for the plan.
#![tactic(auto)]

mod calls;
mod rows;

pub use calls::{plan_numbers, plan_of};
