// One record of a block, or the fused pair that begins with it.
ghost use Rattle.std.specs.Prelude.{◌≡◌, ℕ, suc, ◌*◌, ◌<◌, ◌≤◌, false, List, ◌∷◌, drop};
ghost use Rattle.file_instrs.specs.declared.decode.TimedInstr.{TimedInstr};
ghost use Rattle.armv4t.specs.Bit0.{set_bit0};
ghost use Rattle.c_tree.specs.Stmt.{end};
ghost use Rattle.lower_forms.specs.Forms.{Form, Body};
ghost use Rattle.lower_forms.specs.Block.{emit_pair};
ghost use Rattle.base_lists.specs.Lists.{among};
ghost use Rattle.file_blocks.specs.Read.{instrs_of, next_of};
ghost use Rattle.lower_units.specs.Block.{code_from};
ghost use Rattle.emit_instr.specs.Onward.{Onward};
ghost use Rattle.emit_instr.specs.Steps.{BranchInside};
ghost use Rattle.emit_block.specs.Walk.{IsBody, IsMember, HasBlock};
ghost use Rattle.emit_block.specs.Walk.{IsMemberBlock, Recorded};

use crate::member::{Member, MemberBlock, is_inside};
use armv4t::{Op, set_bit0};
use emit_flow::emit_pair;
use emit_instr::{Setting, Step, emit_instr};
use file_blocks::{BlockRecord, TimedInstr, instr_of, key_of, next_of, region_of};

// Whether a branch goes to a block of the same group; the answer for other operations is of no use.
fn branch_inside(file: &[u8], work: &[u32], m: Member, thumb: bool, op: Op) -> bool
    requires { HasBlock file.now work.now m }
    ensures { (ks : List ℕ) → IsMember file.now work.now m ks
        → BranchInside ks thumb result op }
{
    match op {
        Op::Branch { target, .. } => is_inside(file, work, m, key_of(target, thumb)),
        _ => false,
    }
}

// A fused pair of the block at `src`; the cycles are those pending with its own. `inside`: the key
// of its target is among those of the group.
fn emit_fused(
    out: &mut [u8],
    at: usize,
    cycles: u64,
    target: u32,
    ret: u32,
    inside: bool,
    src: u32,
) -> usize
    ensures { (ks : List ℕ) (b : Body) (j : ℕ) (fs : List Form) → among (set_bit0 target) ks ≡ inside
        → b.addr ≡ src
        → Onward out.old at
        (code_from ks b j (Form.native (emit_pair cycles target ret) ∷ fs)) end out.new
        result }
{
    emit_pair(out, at, cycles, target, ret, inside, src)
}

// An instruction that makes no pair, with index j. inside: the key of its target, if it is a
// branch, is among those of the group.
fn emit_alone(
    out: &mut [u8],
    at: usize,
    block: BlockRecord,
    cycles: u64,
    x: TimedInstr,
    j: u32,
    inside: bool,
) -> Step
    requires { j < block.count }
    ensures { (f ks : List ℕ) (b : Body) (first : ℕ) → IsBody f block first b
        → BranchInside ks block.thumb inside x.instr.op
        → drop j (instrs_of f block first) ≡ x ∷ drop (suc j) (instrs_of f block first)
        → next_of x.instr (drop (suc j) (instrs_of f block first)) ≡ None
        → x.cost ≤ 65535 → cycles ≤ 65535 * j
        → Recorded f block first ks b j cycles out.old at out.new result }
{
    let s = Setting {
        thumb: block.thumb,
        region: region_of(block.addr),
        addr: block.addr,
    };
    emit_instr(out, at, s, cycles, x, j + 1 == block.count, inside)
}

// The record with index j, or the pair that begins there, with cycles pending before it.
pub(crate) fn emit_record(
    out: &mut [u8],
    at: usize,
    file: &[u8],
    work: &[u32],
    m: MemberBlock,
    cycles: u64,
    j: u32,
) -> Step
    requires { HasBlock file.now work.now m.member × (j < m.block.count) }
    ensures { (ks : List ℕ) (b : Body)
        → IsMemberBlock file.now work.now m ks b
        → cycles ≤ 65535 * j
        → Recorded file.now m.block m.first ks b j cycles out.old at
        out.new result }
{
    let block = m.block;
    let Some(x) = instr_of(file, block, m.first, j) else {
        return Step {
            at,
            cycles,
            done: true,
        };
    };
    let own = x.cost as u64;
    match next_of(file, block, m.first, j, x.instr) {
        None => {
            let instr = x.instr;
            let op = instr.op;
            let inside = branch_inside(file, work, m.member, block.thumb, op);
            emit_alone(out, at, block, cycles, x, j, inside)
        }
        Some(pair) => {
            let all = std::num::wrapping_add_u64(cycles, own + pair.cost as u64);
            let inside = is_inside(file, work, m.member, set_bit0(pair.target));
            Step {
                at: emit_fused(out, at, all, pair.target, pair.ret, inside, block.addr),
                cycles: 0,
                done: true,
            }
        }
    }
}
