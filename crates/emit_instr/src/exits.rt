// Instructions that leave the block: branches, Bx and the pop of PC.
ghost use Rattle.std.specs.Prelude.{◌≡◌, ℕ, Bool, List};
ghost use Rattle.base_text.specs.Doc.{◌▸◌};
ghost use Rattle.base_text.specs.Wrote.{Wrote};
ghost use Rattle.c_tree.specs.Stmt.{Owner, Code};
ghost use Rattle.c_tree.specs.Print.{expr_text, code_text};
ghost use Rattle.file_blocks.specs.Address.{key_of};
ghost use Rattle.lower_forms.specs.Forms.{bx, Form, native, Body};
ghost use Rattle.lower_forms.specs.Operands.{cond_expr, reg_of, reg_expr};
ghost use Rattle.lower_forms.specs.InlineBody.{listed};
ghost use Rattle.lower_forms.specs.Block.{flush_ticks, emit_branch, native_exit, emit_pop};
ghost use Rattle.lower_units.specs.Block.{native_text};
ghost use Rattle.lower_units.specs.Lines.{lines_text};
ghost use Rattle.base_lists.specs.Lists.{among};
ghost use Rattle.emit_flow.specs.Pieces.{before_condition};
ghost use Rattle.emit_instr.specs.Steps.{FormWritten};

use crate::step::Step;
use armv4t::{Cond, Instr};
use emit_flow::{Exit, branch_always, branch_taken, open_conditional};
use emit_mem::put_pop;
use emit_operands::{put_cond_expr, put_reg};
use emit_writer::flush_ticks;

// What stands before the registers of a conditional branch.
fn put_condition(out: &mut [u8], at: usize, cycles: u64, cond: Cond) -> usize
    ensures { Wrote out.old at
        (lines_text 4 (flush_ticks cycles) ▸ before_condition ▸ expr_text (cond_expr cond))
        out.new result }
{
    let p = flush_ticks(out, at, cycles);
    let q = open_conditional(out, p);
    put_cond_expr(out, q, cond)
}

// A branch to a target whose key the exit has; the cycles are those pending with its own.
pub(crate) fn emit_branch(
    out: &mut [u8],
    at: usize,
    cycles: u64,
    i: Instr,
    link: bool,
    target: u32,
    e: Exit,
) -> Step
    ensures { (thumb : Bool) (ks : List ℕ) (b : Body) (j : ℕ) (fs : List Form)
        → e.key ≡ key_of target thumb → among e.key ks ≡ e.inside → b.addr ≡ e.src
        → FormWritten out.old at ks b j
        (native (emit_branch thumb cycles i link target), 0) fs out.new result }
{
    let ret = std::num::wrapping_add_u32(i.addr, 4);
    let condition = i.cond;
    if condition.is_al() {
        let p = branch_always(out, at, cycles, link, ret, target, e);
        return Step {
            at: p,
            cycles: 0,
            done: true,
        };
    }
    let q = put_condition(out, at, cycles, condition);
    let s = branch_taken(out, q, link, ret, target, e);
    Step {
        at: s,
        cycles: 0,
        done: false,
    }
}

// Whether a Bx, or the pop of PC, is native in a block of a region: with condition Al, outside
// region 0.
pub(crate) fn is_native_exit(region: u32, i: Instr) -> bool
    ensures { result ≡ native_exit region i }
{
    let condition = i.cond;
    condition.is_al() && region != 0
}

// The text of a Bx.
fn emit_bx(out: &mut [u8], at: usize, cycles: u64, r: u8, pc: u32) -> usize
    ensures { (ks : List ℕ) (a : ℕ) (o : Owner) (c : Code)
        → Wrote out.old at
        (code_text (native_text ks a o (bx (flush_ticks cycles) (reg_of pc r)) c)) out.new
        result }
{
    let p = flush_ticks(out, at, cycles);
    let q = base_text::put(out, p, b"    { uint32_t t = ");
    let s = put_reg(out, q, r, pc);
    base_text::put(
        out,
        s,
        b";\n      if (t & 1u) { c[16] |= 0x20u; c[15] = t & ~1u; return (t & ~1u) | 1u; }\n      c[16] &= ~0x20u; c[15] = t & ~3u; return t & ~3u; }\n",
    )
}

// A Bx; the cycles are those pending with its own.
pub(crate) fn leave_by_bx(out: &mut [u8], at: usize, cycles: u64, i: Instr, rm: u8) -> Step
    ensures { (ks : List ℕ) (b : Body) (j : ℕ) (fs : List Form)
        → FormWritten out.old at ks b j
        (native (bx (flush_ticks cycles) (reg_expr i rm)), 0) fs out.new result }
{
    let pc = i.pc_value();
    let p = emit_bx(out, at, cycles, rm, pc);
    Step {
        at: p,
        cycles: 0,
        done: true,
    }
}

// A pop of PC; the cycles are those pending with its own.
pub(crate) fn leave_by_pop(
    out: &mut [u8],
    at: usize,
    thumb: bool,
    cycles: u64,
    rn: u8,
    rlist: u16,
) -> Step
    ensures { (ks : List ℕ) (b : Body) (j : ℕ) (fs : List Form)
        → FormWritten out.old at ks b j
        (native (emit_pop thumb cycles rn (listed rlist 15)), 0) fs out.new result }
{
    let p = flush_ticks(out, at, cycles);
    let q = put_pop(out, p, thumb, rn, rlist);
    Step {
        at: q,
        cycles: 0,
        done: true,
    }
}
