// What a vector asks of the calls for sentences.
ghost use Rattle.std.specs.Prelude.{◌≤◌};

// Which of the two calls is asked.
#[derive(Clone, Copy)]
pub enum Sentences {
    // That for the sentence of an instruction.
    One,
    // That for the sentences from it on.
    From,
}

// What a vector asks for, and how much it lends.
#[derive(Clone, Copy)]
pub(crate) struct Asked {
    pub(crate) sentences: Sentences,
    // The number of the instruction.
    pub(crate) instruction: u64,
    // How many bytes of text are lent.
    pub(crate) text: usize,
    ghost fits: { text ≤ 65600 },
}
