// What all public calls share: a file is opened or refused, and work numbers are cleared.
#![tactic(auto)]

mod open;
mod refusal;
mod work;

pub use open::open_file;
pub use refusal::Refusal;
pub use work::clear;
