// Whether an instruction is lowered to lines, and these lines.
ghost use Rattle.std.specs.Prelude.{◌≡◌};
ghost use Rattle.std.proofs.Math.Option.{some};
ghost use Rattle.base_text.specs.Wrote.{Wrote};
ghost use Rattle.lower_forms.specs.Forms.{Lines};
ghost use Rattle.lower_forms.specs.InlineBody.{inline_body};
ghost use Rattle.lower_units.specs.Lines.{lines_text};
ghost use Rattle.base_lists.specs.Lists.{is_some};

use armv4t::{Instr, Op};
use emit_alu::{
    LongMultiply, Multiply, Processing, alu_is_inlined, mul_is_inlined, put_alu, put_mul,
    put_mul_long,
};
use emit_mem::{
    BlockTransfer, Transfer, block_mem_is_inlined, mem_is_inlined, put_block_mem, put_mem,
};

// Whether an instruction is lowered to lines, or left to the interpreter.
pub(crate) fn is_inlined(thumb: bool, i: Instr) -> bool
    ensures { result ≡ is_some (inline_body thumb i) }
{
    let op = i.op;
    match op {
        Op::Alu { rd, op2, .. } => alu_is_inlined(rd, op2),
        Op::Mul { rd, .. } => mul_is_inlined(rd),
        Op::MulLong { .. } => true,
        Op::Mem { rd, offset, .. } => mem_is_inlined(rd, offset),
        Op::BlockMem {
            load,
            rn,
            rlist,
            s_bit,
            ..
        } => block_mem_is_inlined(load, rn, rlist, s_bit),
        _ => false,
    }
}

// The lines of an instruction that has such.
pub(crate) fn put_body(out: &mut [u8], at: usize, thumb: bool, i: Instr) -> usize
    ensures { (body : Lines) → inline_body thumb i ≡ some body
        → Wrote out.old at (lines_text 8 body) out.new result }
{
    let op = i.op;
    match op {
        Op::Alu { op, s, rd, rn, op2 } => put_alu(
            out,
            at,
            Processing {
                op,
                s,
                rd,
                rn,
                op2,
                pc: i.pc_value(),
            },
        ),
        Op::Mul {
            acc,
            s,
            rd,
            rn,
            rs,
            rm,
        } => put_mul(
            out,
            at,
            Multiply {
                acc,
                s,
                rd,
                rn,
                rs,
                rm,
            },
        ),
        Op::MulLong {
            signed,
            acc,
            s,
            rd_hi,
            rd_lo,
            rs,
            rm,
        } => put_mul_long(
            out,
            at,
            LongMultiply {
                signed,
                acc,
                s,
                hi: rd_hi,
                lo: rd_lo,
                rs,
                rm,
            },
        ),
        Op::Mem {
            load,
            width,
            signed,
            rd,
            rn,
            offset,
            pre,
            up,
            writeback,
        } => put_mem(
            out,
            at,
            thumb,
            i,
            Transfer {
                load,
                width,
                signed,
                rd,
                rn,
                offset,
                pre,
                up,
                writeback,
            },
        ),
        Op::BlockMem {
            load,
            rn,
            rlist,
            pre,
            up,
            s_bit,
            writeback,
        } => put_block_mem(
            out,
            at,
            i,
            BlockTransfer {
                load,
                rn,
                rlist,
                pre,
                up,
                s_bit,
                writeback,
            },
        ),
        _ => at,
    }
}
