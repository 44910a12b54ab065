// The sections of the units from one on and of their lengths: block files, each with what is asked
// for and how much to lend, and what the call must answer and leave in what it was lent.
#![tactic(auto)]

ghost use Rattle.std.specs.Prelude.{◌≤◌};

pub mod lengths_cases;
pub mod units_cases;

// What a vector asks for, and how much it lends.
#[derive(Clone, Copy)]
pub(crate) struct Asked {
    // The wished bytes of a unit.
    size: u64,
    // The number of the first unit.
    first: u64,
    // How many work numbers are lent.
    work: usize,
    // How many bytes of text are lent; to the call for lengths none.
    text: usize,
    // How many places for a length are lent.
    lengths: usize,
    ghost fits: { (work ≤ 576) × (text ≤ 65600) × (lengths ≤ 32) },
}
