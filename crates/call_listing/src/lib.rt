// The public call for the listing.
#![tactic(auto)]

mod calls;
mod lines;

pub use calls::{listing_numbers, listing_of};
