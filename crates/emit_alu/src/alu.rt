// Data processing.
ghost use Rattle.std.specs.Prelude.{◌≡◌, ℕ, Bool};
ghost use Rattle.armv4t.specs.declared.Instr.{Instr};
ghost use Rattle.armv4t.specs.declared.Op.TheVariants.{Alu};
ghost use Rattle.base_text.specs.Wrote.{Wrote};
ghost use Rattle.lower_forms.specs.InlineBody.{op_body};
ghost use Rattle.base_lists.specs.Lists.{is_some};
ghost use Rattle.emit_alu.specs.Processing.{alu_text};

use crate::logical::{put_one, put_two};
use crate::sum::{put_reversed, put_sum};
use armv4t::{AluOp, Operand2, Reg};
use emit_operands::op2_is_native;

// The fields of data processing, and the PC value of its instruction.
#[derive(Clone, Copy)]
pub struct Processing {
    pub op: AluOp,
    pub s: bool,
    pub rd: Reg,
    pub rn: Reg,
    pub op2: Operand2,
    pub pc: u32,
}

// Whether data processing is lowered to lines.
pub fn alu_is_inlined(rd: Reg, op2: Operand2) -> bool
    ensures { (thumb : Bool) (i : Instr) (op : AluOp) (s : Bool) (rn : ℕ)
        → result ≡ is_some (op_body thumb i (Alu op s rd rn op2)) }
{
    rd != 15 && op2_is_native(op2)
}

// The lines of data processing.
pub fn put_alu(out: &mut [u8], at: usize, a: Processing) -> usize
    ensures { Wrote out.old at (alu_text a) out.new result }
{
    let op = a.op;
    match op {
        AluOp::And => put_two(out, at, a, b" & "),
        AluOp::Eor => put_two(out, at, a, b" ^ "),
        AluOp::Sub => put_sum(out, at, a, b"~", b"1u"),
        AluOp::Rsb => put_reversed(out, at, a, b"1u"),
        AluOp::Add => put_sum(out, at, a, b"", b"0u"),
        AluOp::Adc => put_sum(out, at, a, b"", b"((c[16] >> 29) & 1u)"),
        AluOp::Sbc => put_sum(out, at, a, b"~", b"((c[16] >> 29) & 1u)"),
        AluOp::Rsc => put_reversed(out, at, a, b"((c[16] >> 29) & 1u)"),
        AluOp::Tst => put_two(out, at, a, b" & "),
        AluOp::Teq => put_two(out, at, a, b" ^ "),
        AluOp::Cmp => put_sum(out, at, a, b"~", b"1u"),
        AluOp::Cmn => put_sum(out, at, a, b"", b"0u"),
        AluOp::Orr => put_two(out, at, a, b" | "),
        AluOp::Mov => put_one(out, at, a, b"        uint32_t r = ", b";\n"),
        AluOp::Bic => put_two(out, at, a, b" & ~"),
        AluOp::Mvn => put_one(out, at, a, b"        uint32_t r = (~", b");\n"),
    }
}
