// What is said of an instruction that is not fused, and whether it drops the rest of its block.
ghost use Rattle.std.specs.Prelude.{◌≡◌};
ghost use Rattle.lower_reasons.specs.Reasons.{kind_of};
ghost use Rattle.lower_reasons.specs.Said.{drops_rest, said_of};
ghost use Rattle.emit_sentences.specs.Steps.{said_by};

use crate::reasons::{pops_pc, reason_of};
use armv4t::{Instr, Op};
use emit_sentences::Sentence;
use lower_reasons::Kind;

// The kind of an operation.
fn kind_of(op: Op) -> Kind
    ensures { result ≡ kind_of op }
{
    match op {
        Op::Alu { .. } => Kind::Alu,
        Op::Mul { .. } => Kind::Mul,
        Op::MulLong { .. } => Kind::MulLong,
        Op::Swap { .. } => Kind::Swap,
        Op::Bx { .. } => Kind::Bx,
        Op::Branch { .. } => Kind::Branch,
        Op::ThumbBlHigh { .. } => Kind::ThumbBlHigh,
        Op::ThumbBlLow { .. } => Kind::ThumbBlLow,
        Op::Mem { .. } => Kind::Mem,
        Op::BlockMem { .. } => Kind::BlockMem,
        Op::Mrs { .. } => Kind::Mrs,
        Op::MsrReg { .. } => Kind::MsrReg,
        Op::MsrImm { .. } => Kind::MsrImm,
        Op::Swi { .. } => Kind::Swi,
        Op::Undefined { .. } => Kind::Undefined,
    }
}

// What is said of an instruction that is not fused.
pub(crate) fn said_of(region: u32, i: Instr) -> Option<Sentence>
    ensures { said_by result ≡ said_of region i }
{
    let op = i.op;
    let kind = kind_of(op);
    let reason = reason_of(region, i)?;
    Some(Sentence {
        addr: i.addr,
        kind,
        reason,
    })
}

// Whether an instruction that is not fused is an unconditional native exit.
pub(crate) fn drops_rest(region: u32, i: Instr) -> bool
    ensures { result ≡ drops_rest region i }
{
    let condition = i.cond;
    let op = i.op;
    if !condition.is_al() {
        return false;
    }
    match op {
        Op::Branch { .. } => true,
        Op::Bx { .. } => region != 0,
        Op::BlockMem {
            load,
            rn,
            rlist,
            pre,
            up,
            s_bit,
            writeback,
        } => {
            if region == 0 {
                false
            } else {
                pops_pc(load, rn, rlist, pre, up, s_bit, writeback)
            }
        }
        _ => false,
    }
}
