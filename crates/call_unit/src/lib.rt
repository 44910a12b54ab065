// The public calls for a unit: one measures it, one writes it by what was measured.
#![tactic(auto)]

mod measure;
mod write;

pub use call_answers::Told;
pub use measure::{measure_numbers, measure_of};
pub use write::{write_numbers, write_of};
