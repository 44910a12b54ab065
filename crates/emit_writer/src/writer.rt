// The writer.
ghost use Rattle.std.specs.Prelude.{◌≡◌};
ghost use Rattle.base_text.specs.Wrote.{Wrote};
ghost use Rattle.lower_forms.specs.Block.{flush_ticks};
ghost use Rattle.lower_units.specs.Lines.{lines_text};
ghost use Rattle.emit_writer.specs.Writer.{flushed};

use crate::ticks::put_tick;

// The lent text, the place reached in it, and the cycles that no tick says yet.
#[derive(Drop)]
pub struct Writer<'a> {
    text: &'a mut [u8],
    at: usize,
    cycles: u64,
}

// A writer over a lent text.
pub fn new<'a>(text: &'a mut [u8], at: usize, cycles: u64) -> Writer<'a>
    ensures made { (result.text ≡ text.entry) × (result.at ≡ at) × (result.cycles ≡ cycles) }
    ensures same_reference { result.text.ghost_name ≡ text.entry.ghost_name }
{
    Writer { text, at, cycles }
}

// The line for the cycles pending, if there are any; after it none are.
pub fn flush(w: &mut Writer)
    ensures { w.new ≡ flushed w.old }
{
    let at = w.at;
    let cycles = w.cycles;
    w.at = put_tick(&mut *w.text, at, cycles);
    w.cycles = 0;
}

// The cycles pending at a place of a lent text, if there are any, and the place after their line.
// No writer stands in its contract.
pub fn flush_ticks(out: &mut [u8], at: usize, cycles: u64) -> usize
    ensures { Wrote out.old at (lines_text 4 (flush_ticks cycles)) out.new result }
{
    let mut w = new(out, at, cycles);
    flush(&mut w);
    w.at
}
