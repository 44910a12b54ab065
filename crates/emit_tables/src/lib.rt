// What a unit has around the code of its blocks: PREAMBLE, heads and ends of functions, the cases
// and entries of a group, and declarations, table and count at its end. Each function writes at
// index `at` of a lent buffer, and answers the index after it.
#![tactic(auto)]

mod ends;
mod entries;
mod heads;
mod opening;
mod tables;

pub use ends::put_tail;
pub use entries::{put_cases, put_forwarders};
pub use heads::{put_block_head, put_function_end, put_group_head, put_member_end, put_switch_end};
pub use opening::put_preamble;
