// What a vector asks the printer for.
ghost use Rattle.std.specs.Prelude.{◌≤◌};

// What a vector asks for, and how much it lends.
#[derive(Clone, Copy)]
pub(crate) struct Asked {
    // The number to print.
    pub(crate) number: u64,
    // The index of its first digit.
    pub(crate) at: usize,
    // How many bytes of text are lent.
    pub(crate) text: usize,
    ghost fits: { text ≤ 65600 },
}
