// The public calls for the sentence of one instruction, and for all from an instruction on.
#![tactic(auto)]

mod find;
mod lines;
mod reason;
mod reasons;

pub use reason::{reason_numbers, reason_of};
pub use reasons::{ReasonsValues, reasons_numbers, reasons_of};
