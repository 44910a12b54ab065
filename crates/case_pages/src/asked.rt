// What a vector asks of the calls for pages.
ghost use Rattle.std.specs.Prelude.{◌≤◌};

// Which of the two calls is asked.
#[derive(Clone, Copy)]
pub enum Pages {
    // That for a page.
    One,
    // That for the pages from it on.
    From,
}

// What a vector asks for, and how much it lends.
#[derive(Clone, Copy)]
pub(crate) struct Asked {
    pub(crate) pages: Pages,
    // The number of the page.
    pub(crate) page: u64,
    // How many work numbers are lent.
    pub(crate) work: usize,
    // How many bytes of text are lent.
    pub(crate) text: usize,
    ghost fits: { (work ≤ 576) × (text ≤ 65600) },
}
