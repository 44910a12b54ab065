// Why an instruction went to a shell, and the sentence that says so: definitions, and the types
// that they share with the code.
#![tactic(auto)]

mod types;

pub use types::{Kind, Reason};
