// Instructions left to the interpreter.
ghost use Rattle.std.specs.Prelude.{◌≡◌, ℕ, ◌+◌, Bool, true, false, not, ◌&&◌, List, ◌∷◌, if◌then◌else◌};
ghost use Rattle.c_tree.specs.Stmt.{end};
ghost use Rattle.lower_forms.specs.Forms.{Form, Body};
ghost use Rattle.lower_forms.specs.Block.{emit_shell};
ghost use Rattle.lower_units.specs.Block.{code_from};
ghost use Rattle.emit_instr.specs.Onward.{Onward};
ghost use Rattle.emit_instr.specs.Steps.{FormWritten};
ghost use Rattle.base_lists.specs.Lists.{is_empty};

use crate::step::Step;
use armv4t::Instr;
use emit_flow::{emit_last_shell, emit_shell};
use file_blocks::fall_through;

// A shell, also for an unfused ThumbBlHigh (high), after which the closing transfer stands where it
// is the last of its block.
fn put_shell(out: &mut [u8], at: usize, thumb: bool, cycles: u64, i: Instr, last: bool) -> usize
    ensures { (high : Bool) (ks : List ℕ) (b : Body) (j : ℕ) (fs : List Form) → last ≡ is_empty fs
        → Onward out.old at (code_from ks b j (emit_shell thumb high cycles i ∷ fs))
        (if not high && last then end else code_from ks b (j + 1) fs) out.new result }
{
    if last {
        emit_last_shell(out, at, cycles, i.addr)
    } else {
        let expect = fall_through(thumb, i);
        emit_shell(out, at, cycles, i.addr, expect)
    }
}

// An instruction that is not inlined.
pub(crate) fn emit_interpreted(
    out: &mut [u8],
    at: usize,
    thumb: bool,
    cycles: u64,
    i: Instr,
    last: bool,
) -> Step
    ensures { (ks : List ℕ) (b : Body) (j : ℕ) (fs : List Form) → last ≡ is_empty fs
        → FormWritten out.old at ks b j (emit_shell thumb false cycles i, 0) fs
        out.new result }
{
    Step {
        at: put_shell(out, at, thumb, cycles, i, last),
        cycles: 0,
        done: last,
    }
}

// A ThumbBlHigh that is not fused: the block goes on after it, also where it is the last.
pub(crate) fn emit_half(
    out: &mut [u8],
    at: usize,
    thumb: bool,
    cycles: u64,
    i: Instr,
    last: bool,
) -> Step
    ensures { (ks : List ℕ) (b : Body) (j : ℕ) (fs : List Form) → last ≡ is_empty fs
        → FormWritten out.old at ks b j (emit_shell thumb true cycles i, 0) fs
        out.new result }
{
    Step {
        at: put_shell(out, at, thumb, cycles, i, last),
        cycles: 0,
        done: false,
    }
}
