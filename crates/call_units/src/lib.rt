// The public calls for the units from a given one on, and for their lengths.
#![tactic(auto)]

mod lengths;
mod units;

pub use lengths::{LengthsValues, lengths_numbers, lengths_of};
pub use units::{Asked, FrontValues, units_numbers, units_of};
