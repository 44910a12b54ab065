// What the replays of stored vectors share: the reading of vectors, the comparison of answers, the
// lines printed.
#![tactic(auto)]

pub mod broken;
pub mod compare;
pub mod input;
pub mod report;
pub mod section;
