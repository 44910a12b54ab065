// The rows of a group in the plan.

// A group's rows, from its first to the one before its end.
#[derive(Clone, Copy)]
pub struct Rows {
    // How many blocks the file has.
    pub blocks: usize,
    pub first: usize,
    pub end: usize,
}
