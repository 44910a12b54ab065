// The text of one instruction of a block: its lines where it is inlined, a call of the interpreter
// where it is not, or an exit of the block.
#![tactic(auto)]

mod bodies;
mod cycles;
mod exits;
mod instr;
mod setting;
mod shells;
mod step;
mod straight;

pub use instr::emit_instr;
pub use setting::Setting;
pub use step::Step;
