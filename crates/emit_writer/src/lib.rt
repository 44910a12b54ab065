// The writer: a small struct that holds the lent text, the place reached and the cycles pending.
// Every tick is written through it.
#![tactic(auto)]

mod ticks;
mod writer;

pub use writer::{Writer, flush, flush_ticks, new};
