// The sections of a unit that is measured and of one that is written: block files, each with what
// is asked for and how much to lend, and what the call must answer and leave in what it was lent.
#![tactic(auto)]

pub mod measure_cases;
pub mod write_cases;
