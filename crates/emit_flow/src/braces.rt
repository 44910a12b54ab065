// The braces around the lines of a native record.
ghost use Rattle.base_text.specs.Wrote.{Wrote};
ghost use Rattle.emit_flow.specs.Pieces.{straight_open, straight_end, before_condition};
ghost use Rattle.emit_flow.specs.Pieces.{straight_if_open, straight_if_end};

// Before the lines of a record without a condition.
pub fn open_straight(out: &mut [u8], at: usize) -> usize
    ensures { Wrote out.old at straight_open out.new result }
{
    base_text::put(out, at, b"    {\n")
}

// After them.
pub fn close_straight(out: &mut [u8], at: usize) -> usize
    ensures { Wrote out.old at straight_end out.new result }
{
    base_text::put(out, at, b"    }\n")
}

// What stands before the condition of a record.
pub fn open_conditional(out: &mut [u8], at: usize) -> usize
    ensures { Wrote out.old at before_condition out.new result }
{
    base_text::put(
        out,
        at,
        b"    { uint32_t s_ = c[16]; uint32_t cn = s_ >> 31, cz = (s_ >> 30) & 1u, cc = (s_ >> 29) & 1u, cv = (s_ >> 28) & 1u;\n      if (",
    )
}

// Between the condition and the lines that it is for.
pub fn open_straight_if(out: &mut [u8], at: usize) -> usize
    ensures { Wrote out.old at straight_if_open out.new result }
{
    base_text::put(out, at, b") {\n")
}

// After those lines.
pub fn close_straight_if(out: &mut [u8], at: usize) -> usize
    ensures { Wrote out.old at straight_if_end out.new result }
{
    base_text::put(out, at, b"      } }\n")
}
