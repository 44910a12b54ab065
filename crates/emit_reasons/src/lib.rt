// Why instructions went to shells, as code: reasons, the walk over a block, and its lines.
#![tactic(auto)]

mod lines;
mod reasons;
mod said;
mod walk;

pub use lines::{Progress, put_block};
pub use walk::said_at;
