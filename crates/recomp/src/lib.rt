// The C forms of the public calls, each of which hands on to the crate of its call. The library
// that C and Rust link exports these and nothing else.
#![tactic(auto)]

mod c_check;
mod c_exits;
mod c_listing;
mod c_pages;
mod c_plan;
mod c_reasons;
mod c_unit;
mod c_units;

pub use c_check::recomp_check;
pub use c_exits::recomp_exits;
pub use c_listing::recomp_listing;
pub use c_pages::{recomp_page, recomp_pages};
pub use c_plan::recomp_plan;
pub use c_reasons::{recomp_reason, recomp_reasons};
pub use c_unit::{recomp_measure, recomp_write};
pub use c_units::{recomp_lengths, recomp_units};
