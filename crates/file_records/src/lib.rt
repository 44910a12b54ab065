// The trailer of a block file and its block records: their fields, and the rules of refusals 2, 3
// and 4. Refusal 1 and the order of keys, refusal 5, are decided by `file_blocks`.
#![tactic(auto)]

pub mod block_record;
pub mod bytes;
pub mod trailer;
