// The kinds of instruction record, by number.
ghost use Rattle.std.specs.Prelude.{◌≡◌};
ghost use Rattle.file_instrs.specs.Kind.{kind_of};

// A kind of instruction record, in the order of their numbers.
#[derive(Clone, Copy)]
pub(crate) enum Kind {
    Alu,
    Mul,
    MulLong,
    Swap,
    Bx,
    Branch,
    ThumbBlHigh,
    ThumbBlLow,
    Mem,
    BlockMem,
    Mrs,
    MsrReg,
    MsrImm,
    Swi,
    Undefined,
}

// The check refuses the numbers past 14.
impl From<u8> for Kind {
    ghost from_gives = { λ n k. k ≡ kind_of n };

    fn from(number: u8) -> Kind {
        match number {
            0 => Kind::Alu,
            1 => Kind::Mul,
            2 => Kind::MulLong,
            3 => Kind::Swap,
            4 => Kind::Bx,
            5 => Kind::Branch,
            6 => Kind::ThumbBlHigh,
            7 => Kind::ThumbBlLow,
            8 => Kind::Mem,
            9 => Kind::BlockMem,
            10 => Kind::Mrs,
            11 => Kind::MsrReg,
            12 => Kind::MsrImm,
            13 => Kind::Swi,
            _ => Kind::Undefined,
        }
    }
}
