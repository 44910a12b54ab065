// The units of a file at a wished size: where the unit with a number begins, its rows, its text,
// and the units from a given one on that fit what is lent.
#![tactic(auto)]

mod bounds;
mod extents;
mod finding;
mod fronts;

pub use extents::Extent;
pub use finding::{find_start, find_unit, write_unit};
pub use fronts::{Front, Lengths, put_lengths, put_units};
