// The plan of a file in its work numbers, as the passes over blocks and groups read it.
#![tactic(auto)]

mod group_numbers;
mod group_rows;
mod keys;
mod lookup;
mod numbers;
mod rows;

pub use group_numbers::put_groups;
pub use group_rows::Rows;
pub use keys::{block_key, row_key};
pub use lookup::in_group;
pub use numbers::prepare;
pub use rows::{first_of, group_end, row_block, row_group};
