// The text of control flow: transfers, labels, shells, branches, guards, and the braces around
// statements. Each function writes at index `at` of a lent buffer, and answers the index after it.
#![tactic(auto)]

mod braces;
mod exits;
mod flow;
mod guards;
mod keys;
mod shells;

pub use braces::{
    close_straight, close_straight_if, open_conditional, open_straight, open_straight_if,
};
pub use exits::{branch_always, branch_taken, emit_closing, emit_pair};
pub use flow::Exit;
pub use guards::{emit_defer, emit_guard};
pub use keys::{put_label, put_then_key};
pub use shells::{emit_last_shell, emit_shell};
