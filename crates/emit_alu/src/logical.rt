// Data processing that takes the carry from its second operand.
ghost use Rattle.std.specs.Prelude.{cond, [], ◌∷◌};
ghost use Rattle.base_text.specs.Doc.{raw, text, ◌▸◌};
ghost use Rattle.base_text.specs.Wrote.{Wrote};
ghost use Rattle.c_tree.specs.Expr.{x-r};
ghost use Rattle.c_tree.specs.Stmt.{f-nz, run};
ghost use Rattle.c_tree.specs.Preamble.{v32};
ghost use Rattle.c_tree.specs.Print.{expr_text};
ghost use Rattle.lower_forms.specs.InlineBody.{result as result_lines, logical_c};
ghost use Rattle.lower_forms.specs.Operands.{operand_of};
ghost use Rattle.emit_alu.specs.Texts.{statements_text};
ghost use Rattle.emit_alu.specs.Processing.{first, second, logical_rest_text};

use crate::alu::Processing;
use crate::mul::put_low;
use armv4t::{AluOp, Operand2, Reg};
use emit_operands::{op2_has_carry, put_op2_carry, put_op2_value, put_reg};

// The last line of data processing.
pub(crate) fn put_result(out: &mut [u8], at: usize, op: AluOp, rd: Reg) -> usize
    ensures { Wrote out.old at (statements_text (result_lines op rd ∷ [])) out.new result }
{
    if op.is_compare() {
        return base_text::put(out, at, b"        (void)r;\n");
    }
    put_low(out, at, rd)
}

// The line that sets C, if the second operand gives a carry.
fn put_logical_c(out: &mut [u8], at: usize, op2: Operand2, pc: u32) -> usize
    ensures { Wrote out.old at (statements_text (logical_c (operand_of pc op2).1))
        out.new result }
{
    if op2_has_carry(op2) {
        let p = base_text::put(out, at, b"        f_c(c, ");
        let q = put_op2_carry(out, p, op2, pc);
        return base_text::put(out, q, b");\n");
    }
    at
}

// The lines that set the flags, if s is set: N and Z, and C where the second operand gives a carry.
fn put_flags(out: &mut [u8], at: usize, s: bool, op2: Operand2, pc: u32) -> usize
    ensures { Wrote out.old at
        (statements_text (cond s (run f-nz (v32 x-r) ∷ logical_c (operand_of pc op2).1) []))
        out.new result }
{
    if s {
        let p = base_text::put(out, at, b"        f_nz(c, r);\n");
        return put_logical_c(out, p, op2, pc);
    }
    at
}

// The lines after the first.
fn put_logical_rest(out: &mut [u8], at: usize, a: Processing) -> usize
    ensures { Wrote out.old at (logical_rest_text a) out.new result }
{
    let op = a.op;
    let op2 = a.op2;
    let p = put_flags(out, at, a.s, op2, a.pc);
    put_result(out, p, op, a.rd)
}

// The lines of an operation with two operands: t stands between them.
pub(crate) fn put_two(out: &mut [u8], at: usize, a: Processing, t: &[u8]) -> usize
    ensures { Wrote out.old at
        (text "        uint32_t r = (" ▸ expr_text (first a) ▸ raw t.now
        ▸ expr_text (second a) ▸ text ");\n" ▸ logical_rest_text a)
        out.new result }
{
    let op2 = a.op2;
    let p = base_text::put(out, at, b"        uint32_t r = (");
    let q = put_reg(out, p, a.rn, a.pc);
    let v = base_text::put(out, q, t);
    let w = put_op2_value(out, v, op2, a.pc);
    let x = base_text::put(out, w, b");\n");
    put_logical_rest(out, x, a)
}

// The lines of an operation with one operand: t stands before it, u after it.
pub(crate) fn put_one(out: &mut [u8], at: usize, a: Processing, t: &[u8], u: &[u8]) -> usize
    ensures { Wrote out.old at
        (raw t.now ▸ expr_text (second a) ▸ raw u.now ▸ logical_rest_text a)
        out.new result }
{
    let op2 = a.op2;
    let p = base_text::put(out, at, t);
    let q = put_op2_value(out, p, op2, a.pc);
    let v = base_text::put(out, q, u);
    put_logical_rest(out, v, a)
}
