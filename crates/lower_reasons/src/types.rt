// The parts of a sentence.

// The kinds of `Op`, in its order.
#[derive(Clone, Copy)]
pub enum Kind {
    Alu,
    Mul,
    MulLong,
    Swap,
    Bx,
    Branch,
    ThumbBlHigh,
    ThumbBlLow,
    Mem,
    BlockMem,
    Mrs,
    MsrReg,
    MsrImm,
    Swi,
    Undefined,
}

// Why an instruction is left to the interpreter, in the order in which the reasons count.
#[derive(Clone, Copy)]
pub enum Reason {
    UnpairedHalf,
    ConditionalExit,
    BiosExit,
    PcResult,
    RegisterShift,
    ExtendOffset,
    UserRegisters,
    EmptyList,
    PcBase,
    PcLoaded,
    NoNativeForm,
}
