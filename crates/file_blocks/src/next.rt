// What an instruction of a block makes with the one after it: a fused pair, or none.
ghost use Rattle.std.specs.Prelude.{◌≡◌, ℕ, suc, ◌<◌, false, List, [], ◌∷◌, drop};
ghost use Rattle.file_instrs.specs.declared.decode.TimedInstr.{TimedInstr};
ghost use Rattle.file_blocks.specs.Read.{IsBlock, instrs_of, next_of};

use crate::instrs::instr_of;
use crate::read::BlockRecord;
use armv4t::{Instr, Op, fuse_thumb_bl};
use file_instrs::decode::TimedInstr;

// A fused pair of instructions.
#[derive(Clone, Copy)]
pub struct FusedPair {
    // Where it goes.
    pub target: u32,
    // The return address with the Thumb bit.
    pub ret: u32,
    // The cost of the second half.
    pub cost: u16,
}

// The pair that two instructions make.
fn fused_next(x: Instr, y: TimedInstr) -> Option<FusedPair>
    ensures { result ≡ next_of x (y ∷ []) }
{
    let (target, ret) = fuse_thumb_bl(x, y.instr)?;
    Some(FusedPair {
        target,
        ret,
        cost: y.cost,
    })
}

// Whether an instruction is the first half of a Thumb BL; any other makes no pair with the one
// after it.
fn begins_bl(x: Instr) -> bool
    ensures { result ≡ false → (ys : List TimedInstr) → next_of x ys ≡ None }
{
    matches!(x.op, Op::ThumbBlHigh { .. })
}

// The pair that instruction j of a block makes with the one after it. Where it cannot make one,
// that one is not read.
pub fn next_of(file: &[u8], block: BlockRecord, first: usize, j: u32, x: Instr) -> Option<FusedPair>
    requires { j < block.count }
    ensures { (i : ℕ) → IsBlock file.now i block first
        → result ≡ next_of x (drop (suc j) (instrs_of file.now block first)) }
{
    if !begins_bl(x) {
        return None;
    }
    if j + 1 == block.count {
        return None;
    }
    let y = instr_of(file, block, first, j + 1)?;
    fused_next(x, y)
}
