// Instructions that go on to the next one: inlined, or left to the interpreter.
ghost use Rattle.std.specs.Prelude.{◌≡◌, ℕ, ◌+◌, ◌^◌, ◌<◌, true, false, cond, List, []};
ghost use Rattle.std.proofs.Math.Option.{some};
ghost use Rattle.base_text.specs.Wrote.{Wrote};
ghost use Rattle.armv4t.specs.Cond.{is_al};
ghost use Rattle.lower_forms.specs.Forms.{Lines, Form, Body};
ghost use Rattle.lower_forms.specs.Operands.{cond_expr};
ghost use Rattle.lower_forms.specs.InlineBody.{inline_body};
ghost use Rattle.lower_forms.specs.Block.{flush_ticks, emit_lines, emit_straight};
ghost use Rattle.lower_units.specs.Lines.{lines_text};
ghost use Rattle.emit_instr.specs.Steps.{FormWritten, lowered};
ghost use Rattle.base_lists.specs.Lists.{is_empty};

use crate::bodies::{is_inlined, put_body};
use crate::cycles::pending;
use crate::shells::emit_interpreted;
use crate::step::Step;
use armv4t::Instr;
use emit_flow::{
    close_straight, close_straight_if, open_conditional, open_straight, open_straight_if,
};
use emit_operands::put_cond_expr;
use emit_writer::flush_ticks;
use file_blocks::TimedInstr;

// The cycles pending before an instruction that touches memory; they stay pending before another.
fn put_ticks(out: &mut [u8], at: usize, touches_bus: bool, cycles: u64) -> usize
    ensures { Wrote out.old at (lines_text 4 (cond touches_bus (flush_ticks cycles) []))
        out.new result }
{
    if touches_bus {
        flush_ticks(out, at, cycles)
    } else {
        at
    }
}

// The lines of an instruction in braces.
fn put_straight(out: &mut [u8], at: usize, thumb: bool, i: Instr) -> usize
    ensures { (body : Lines) → inline_body thumb i ≡ some body
        → Wrote out.old at (lowered true (cond_expr i.cond) body) out.new
        result }
{
    let p = open_straight(out, at);
    let q = put_body(out, p, thumb, i);
    close_straight(out, q)
}

// The same after its condition.
fn put_straight_if(out: &mut [u8], at: usize, thumb: bool, i: Instr) -> usize
    ensures { (body : Lines) → inline_body thumb i ≡ some body
        → Wrote out.old at (lowered false (cond_expr i.cond) body)
        out.new result }
{
    let condition = i.cond;
    let p = open_conditional(out, at);
    let q = put_cond_expr(out, p, condition);
    let s = open_straight_if(out, q);
    let t = put_body(out, s, thumb, i);
    close_straight_if(out, t)
}

// The lines of an instruction, after its condition unless it always holds.
fn put_lowered(out: &mut [u8], at: usize, thumb: bool, i: Instr) -> usize
    ensures { (body : Lines) → inline_body thumb i ≡ some body
        → Wrote out.old at (lowered (is_al i.cond) (cond_expr i.cond) body)
        out.new result }
{
    let condition = i.cond;
    if condition.is_al() {
        put_straight(out, at, thumb, i)
    } else {
        put_straight_if(out, at, thumb, i)
    }
}

// An instruction that is inlined.
fn emit_lowered(
    out: &mut [u8],
    at: usize,
    thumb: bool,
    touches_bus: bool,
    cycles: u64,
    x: TimedInstr,
) -> Step
    ensures { (body : Lines) → inline_body thumb x.instr ≡ some body
        → (ks : List ℕ) (b : Body) (j : ℕ) (fs : List Form) → cycles + x.cost < 2 ^ 64
        → FormWritten out.old at ks b j
        (emit_lines thumb touches_bus cycles x (some body)) fs out.new result }
{
    let p = put_ticks(out, at, touches_bus, cycles);
    let i = x.instr;
    let q = put_lowered(out, p, thumb, i);
    Step {
        at: q,
        cycles: pending(touches_bus, cycles, x.cost),
        done: false,
    }
}

// An instruction of a block that goes on after it; touches_bus: it touches memory. last: it is the
// block's last.
pub(crate) fn emit_straight(
    out: &mut [u8],
    at: usize,
    thumb: bool,
    touches_bus: bool,
    cycles: u64,
    x: TimedInstr,
    last: bool,
) -> Step
    ensures { (ks : List ℕ) (b : Body) (j : ℕ) (fs : List Form) → last ≡ is_empty fs
        → cycles + x.cost < 2 ^ 64
        → FormWritten out.old at ks b j (emit_straight thumb touches_bus cycles x)
        fs out.new result }
{
    let i = x.instr;
    if is_inlined(thumb, i) {
        emit_lowered(out, at, thumb, touches_bus, cycles, x)
    } else {
        emit_interpreted(out, at, thumb, cycles, i, last)
    }
}
