// The rules of a block file, as errors of its check.
ghost use Rattle.std.specs.Prelude.{◌≡◌};
ghost use Rattle.file_blocks.specs.Refusal.{number, place};

// A rule of the refusal table at one place of the file.
#[derive(Clone, Copy, Debug, PartialEq, Eq)]
pub enum Rule {
    // 1: the file holds a trailer.
    Short,
    // 2: it has no more blocks, instructions and bytes than the limits.
    Limits,
    // 3: its trailer is right.
    Trailer,
    // 4: the record of block i is right.
    Block(u64),
    // 5: the key of block i is above that of the block before.
    Order(u64),
    // 6: the blocks have as many instructions as the trailer says.
    Sum,
    // 7: the record of instruction i is right.
    Instr(u64),
}

impl Rule {
    // The number of its refusal.
    pub fn number(self) -> u32
        ensures { result ≡ number self }
    {
        match self {
            Rule::Short => 1,
            Rule::Limits => 2,
            Rule::Trailer => 3,
            Rule::Block(_) => 4,
            Rule::Order(_) => 5,
            Rule::Sum => 6,
            Rule::Instr(_) => 7,
        }
    }

    // i of its refusal, or 0 where there is none.
    pub fn place(self) -> u64
        ensures { result ≡ place self }
    {
        match self {
            Rule::Block(i) | Rule::Order(i) | Rule::Instr(i) => i,
            Rule::Short | Rule::Limits | Rule::Trailer | Rule::Sum => 0,
        }
    }
}
