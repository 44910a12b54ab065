// An instruction of a block, by its operation.
ghost use Rattle.std.specs.Prelude.{◌≡◌, ℕ, ◌+◌, ◌^◌, ◌<◌, List};
ghost use Rattle.armv4t.specs.declared.Op.TheVariants.{Bx, BlockMem};
ghost use Rattle.lower_forms.specs.Forms.{Form, Body};
ghost use Rattle.lower_forms.specs.Block.{emit_op, emit_instr};
ghost use Rattle.emit_instr.specs.Steps.{FormWritten, BranchInside};
ghost use Rattle.base_lists.specs.Lists.{is_empty};

use crate::cycles::with_cost;
use crate::exits::{emit_branch, is_native_exit, leave_by_bx, leave_by_pop};
use crate::setting::Setting;
use crate::shells::emit_half;
use crate::step::Step;
use crate::straight::emit_straight;
use armv4t::Op;
use emit_flow::Exit;
use emit_mem::{BlockTransfer, is_pop};
use file_blocks::{TimedInstr, key_of};

// A Bx: an exit, or left to the interpreter.
fn emit_any_bx(
    out: &mut [u8],
    at: usize,
    s: Setting,
    cycles: u64,
    x: TimedInstr,
    rm: u8,
    last: bool,
) -> Step
    ensures { (ks : List ℕ) (b : Body) (j : ℕ) (fs : List Form) → last ≡ is_empty fs
        → cycles + x.cost < 2 ^ 64
        → FormWritten out.old at ks b j
        (emit_op s.thumb s.region cycles x (Bx rm)) fs out.new result }
{
    let i = x.instr;
    if is_native_exit(s.region, i) {
        leave_by_bx(out, at, with_cost(cycles, x.cost), i, rm)
    } else {
        emit_straight(out, at, s.thumb, false, cycles, x, last)
    }
}

// A BlockMem: a pop of PC, which is an exit, or another.
fn emit_block_mem(
    out: &mut [u8],
    at: usize,
    s: Setting,
    cycles: u64,
    x: TimedInstr,
    m: BlockTransfer,
    last: bool,
) -> Step
    ensures { (ks : List ℕ) (b : Body) (j : ℕ) (fs : List Form) → last ≡ is_empty fs
        → cycles + x.cost < 2 ^ 64
        → FormWritten out.old at ks b j
        (emit_op s.thumb s.region cycles x
        (BlockMem m.load m.rn m.rlist m.pre m.up m.s_bit m.writeback))
        fs out.new result }
{
    let i = x.instr;
    let condition = i.cond;
    let al = condition.is_al();
    if is_pop(s.region, al, m) {
        leave_by_pop(out, at, s.thumb, with_cost(cycles, x.cost), m.rn, m.rlist)
    } else {
        emit_straight(out, at, s.thumb, true, cycles, x, last)
    }
}

// An instruction that is not fused. cycles: those pending before it; last: it is the block's last;
// inside: the key of its target, if it is a branch, is among those of the group.
pub fn emit_instr(
    out: &mut [u8],
    at: usize,
    s: Setting,
    cycles: u64,
    x: TimedInstr,
    last: bool,
    inside: bool,
) -> Step
    ensures { (ks : List ℕ) (b : Body) (j : ℕ) (fs : List Form) → last ≡ is_empty fs
        → b.addr ≡ s.addr → cycles + x.cost < 2 ^ 64
        → BranchInside ks s.thumb inside x.instr.op
        → FormWritten out.old at ks b j
        (emit_instr s.thumb s.region cycles x) fs out.new result }
{
    let i = x.instr;
    let op = i.op;
    match op {
        Op::Bx { rm } => emit_any_bx(out, at, s, cycles, x, rm, last),
        Op::Branch { link, target } => emit_branch(
            out,
            at,
            with_cost(cycles, x.cost),
            i,
            link,
            target,
            Exit {
                src: s.addr,
                key: key_of(target, s.thumb),
                inside,
            },
        ),
        Op::ThumbBlHigh { .. } => emit_half(out, at, s.thumb, cycles, i, last),
        Op::Mem { .. } => emit_straight(out, at, s.thumb, true, cycles, x, last),
        Op::BlockMem {
            load,
            rn,
            rlist,
            pre,
            up,
            s_bit,
            writeback,
        } => emit_block_mem(
            out,
            at,
            s,
            cycles,
            x,
            BlockTransfer {
                load,
                rn,
                rlist,
                pre,
                up,
                s_bit,
                writeback,
            },
            last,
        ),
        _ => emit_straight(out, at, s.thumb, false, cycles, x, last),
    }
}
