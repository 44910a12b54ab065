// Data processing that adds.
ghost use Rattle.std.specs.Prelude.{[], ◌∷◌};
ghost use Rattle.base_text.specs.Doc.{raw, ◌▸◌};
ghost use Rattle.base_text.specs.Wrote.{Wrote};
ghost use Rattle.c_tree.specs.Expr.{compl, Expr, un};
ghost use Rattle.c_tree.specs.Print.{expr_text};
ghost use Rattle.lower_forms.specs.InlineBody.{result as result_lines};
ghost use Rattle.emit_alu.specs.Texts.{statements_text, before, between, after, SameText};
ghost use Rattle.emit_alu.specs.Processing.{first, second, sum_text};

use crate::alu::Processing;
use crate::logical::put_result;
use emit_operands::{put_op2_value, put_reg};

// What stands before the terms of a sum: with s the call of op_adds, which sets the flags.
fn put_before(out: &mut [u8], at: usize, s: bool) -> usize
    ensures { Wrote out.old at (before s) out.new result }
{
    if s {
        base_text::put(out, at, b"        uint32_t r = op_adds(c, ")
    } else {
        base_text::put(out, at, b"        uint32_t r = ")
    }
}

// What stands between two terms.
fn put_between(out: &mut [u8], at: usize, s: bool) -> usize
    ensures { Wrote out.old at (between s) out.new result }
{
    if s {
        base_text::put(out, at, b", ")
    } else {
        base_text::put(out, at, b" + ")
    }
}

// What stands after the last term.
fn put_after(out: &mut [u8], at: usize, s: bool) -> usize
    ensures { Wrote out.old at (after s) out.new result }
{
    if s {
        base_text::put(out, at, b");\n")
    } else {
        base_text::put(out, at, b";\n")
    }
}

// The third term, and the lines after the first.
fn put_sum_rest(out: &mut [u8], at: usize, a: Processing, carry: &[u8]) -> usize
    ensures { Wrote out.old at
        (between a.s ▸ raw carry.now ▸ after a.s
        ▸ statements_text (result_lines a.op a.rd ∷ []))
        out.new result }
{
    let op = a.op;
    let p = put_between(out, at, a.s);
    let q = base_text::put(out, p, carry);
    let v = put_after(out, q, a.s);
    put_result(out, v, op, a.rd)
}

// The lines of a sum of rn, the second operand with t before it, and a carry.
pub(crate) fn put_sum(out: &mut [u8], at: usize, a: Processing, t: &[u8], carry: &[u8]) -> usize
    ensures { ((y z : Expr) → SameText (raw t.now ▸ expr_text (second a)) (expr_text y)
        → SameText (raw carry.now) (expr_text z)
        → Wrote out.old at (sum_text a (first a) y z) out.new result) }
{
    let op2 = a.op2;
    let p = put_before(out, at, a.s);
    let q = put_reg(out, p, a.rn, a.pc);
    let v = put_between(out, q, a.s);
    let w = base_text::put(out, v, t);
    let x = put_op2_value(out, w, op2, a.pc);
    put_sum_rest(out, x, a, carry)
}

// The lines of a sum of the second operand, the complement of rn, and a carry.
pub(crate) fn put_reversed(out: &mut [u8], at: usize, a: Processing, carry: &[u8]) -> usize
    ensures { ((z : Expr) → SameText (raw carry.now) (expr_text z)
        → Wrote out.old at (sum_text a (second a) (un compl (first a)) z)
        out.new result) }
{
    let op2 = a.op2;
    let p = put_before(out, at, a.s);
    let q = put_op2_value(out, p, op2, a.pc);
    let v = put_between(out, q, a.s);
    let w = base_text::put(out, v, b"~");
    let x = put_reg(out, w, a.rn, a.pc);
    put_sum_rest(out, x, a, carry)
}
