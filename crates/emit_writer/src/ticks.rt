// The line of a tick: what does the work under the writer, covered by the borrow checker.
ghost use Rattle.base_text.specs.Wrote.{Wrote};
ghost use Rattle.emit_writer.specs.Ticks.{ticks};

// The line for the cycles pending, if there are any.
pub(crate) fn put_tick(out: &mut [u8], at: usize, cycles: u64) -> usize
    ensures { Wrote out.old at (ticks cycles) out.new result }
{
    if cycles == 0 {
        return at;
    }
    let p = base_text::put_then_dec(out, at, b"    a->tick(m, ", cycles);
    base_text::put(out, p, b"u);\n")
}
