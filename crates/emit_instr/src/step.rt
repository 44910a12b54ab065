// What is left when an instruction was written.

// Where the text has come to, the cycles pending there, and whether nothing of the block is left to
// write.
#[derive(Clone, Copy)]
pub struct Step {
    pub at: usize,
    pub cycles: u64,
    pub done: bool,
}
