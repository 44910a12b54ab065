// The sections of calls that are lent nothing to write to: the check and the exits.
#![tactic(auto)]

pub mod check_cases;
pub mod exits_cases;

// The longest file that a vector may hold.
const LONGEST: usize = 4096;
