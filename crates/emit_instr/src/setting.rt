// What the text of an instruction takes from its block.

// The block that an instruction stands in.
#[derive(Clone, Copy)]
pub struct Setting {
    // Whether its instructions are Thumb, or else ARM.
    pub thumb: bool,
    // The region of its address.
    pub region: u32,
    // Its address.
    pub addr: u32,
}
