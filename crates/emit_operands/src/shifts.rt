// The shifts of a register operand, by kind and by the amount as encoded.
ghost use Rattle.std.specs.Prelude.{◌≡◌, ◌-◌};
ghost use Rattle.armv4t.specs.declared.ShiftKind.TheVariants.{Lsl, Lsr, Asr, Ror};
ghost use Rattle.base_text.specs.Doc.{raw, dec, ◌▸◌};
ghost use Rattle.base_text.specs.Wrote.{Wrote};
ghost use Rattle.c_tree.specs.Print.{expr_text};
ghost use Rattle.lower_forms.specs.Operands.{bit_of};
ghost use Rattle.emit_operands.specs.Operands.{source_expr, shifted_text, shift_carry_text};

use crate::{Source, put_around, put_reg};
use armv4t::ShiftKind;

// s, the register, t, a number and u.
fn put_amount(out: &mut [u8], at: usize, s: &[u8], from: Source, t: &[u8], n: u8, u: &[u8]) -> usize
    ensures { Wrote out.old at
        (raw s.now ▸ expr_text (source_expr from)
        ▸ raw t.now ▸ dec n ▸ raw u.now)
        out.new result }
{
    let p = put_around(out, at, s, from, t);
    let q = base_text::put_dec(out, p, n as u64);
    base_text::put(out, q, u)
}

// A register shifted by Lsl; amount 0 leaves it as it is.
fn put_lsl(out: &mut [u8], at: usize, from: Source, amount: u8) -> usize
    ensures { Wrote out.old at (shifted_text from Lsl amount) out.new result }
{
    if amount == 0 {
        return put_reg(out, at, from.n, from.pc);
    }
    put_amount(out, at, b"(", from, b" << ", amount, b"u)")
}

// A register shifted by Lsr; amount 0 means 32, and gives 0.
fn put_lsr(out: &mut [u8], at: usize, from: Source, amount: u8) -> usize
    ensures { Wrote out.old at (shifted_text from Lsr amount) out.new result }
{
    if amount == 0 {
        return base_text::put(out, at, b"0u");
    }
    put_amount(out, at, b"(", from, b" >> ", amount, b"u)")
}

// A register shifted by Asr; amount 0 means 32, which gives the same as 31.
fn put_asr(out: &mut [u8], at: usize, from: Source, amount: u8) -> usize
    ensures { Wrote out.old at (shifted_text from Asr amount) out.new result }
{
    if amount == 0 {
        return put_amount(out, at, b"((uint32_t)((int32_t)", from, b" >> ", 31, b"))");
    }
    put_amount(
        out,
        at,
        b"((uint32_t)((int32_t)",
        from,
        b" >> ",
        amount,
        b"))",
    )
}

// A register shifted by Ror; amount 0 means RRX, which brings the carry flag in at bit 31.
fn put_ror(out: &mut [u8], at: usize, from: Source, amount: u8) -> usize
    ensures { Wrote out.old at (shifted_text from Ror amount) out.new result }
{
    if amount == 0 {
        return put_around(
            out,
            at,
            b"((((c[16] >> 29) & 1u) << 31) | (",
            from,
            b" >> 1u))",
        );
    }
    put_amount(out, at, b"ror32(", from, b", ", amount, b"u)")
}

// A shifted register.
pub fn put_shift_value(
    out: &mut [u8],
    at: usize,
    from: Source,
    kind: ShiftKind,
    amount: u8,
) -> usize
    ensures { Wrote out.old at (shifted_text from kind amount) out.new result }
{
    match kind {
        ShiftKind::Lsl => put_lsl(out, at, from, amount),
        ShiftKind::Lsr => put_lsr(out, at, from, amount),
        ShiftKind::Asr => put_asr(out, at, from, amount),
        ShiftKind::Ror => put_ror(out, at, from, amount),
    }
}

// Bit n of a register.
fn put_bit(out: &mut [u8], at: usize, from: Source, n: u8) -> usize
    ensures { Wrote out.old at (expr_text (bit_of (source_expr from) n)) out.new result }
{
    put_amount(out, at, b"((", from, b" >> ", n, b"u) & 1u)")
}

// The bit that a shift to the left by an amount moves out last.
fn last_out(amount: u8) -> u8
    ensures { result ≡ 32 - amount }
{
    if amount <= 32 { 32 - amount } else { 0 }
}

// The carry out of Lsl: nothing with amount 0.
fn put_left_carry(out: &mut [u8], at: usize, from: Source, amount: u8) -> usize
    ensures { Wrote out.old at (shift_carry_text from Lsl amount) out.new result }
{
    if amount == 0 {
        return at;
    }
    put_bit(out, at, from, last_out(amount))
}

// Lsr and Asr move out the same bit.
fn put_right_carry(out: &mut [u8], at: usize, from: Source, amount: u8) -> usize
    ensures { Wrote out.old at (shift_carry_text from Lsr amount) out.new result }
{
    if amount == 0 {
        return put_around(out, at, b"(", from, b" >> 31u)");
    }
    put_bit(out, at, from, amount - 1)
}

// The carry out of Ror: with amount 0 that of RRX, bit 0.
fn put_ror_carry(out: &mut [u8], at: usize, from: Source, amount: u8) -> usize
    ensures { Wrote out.old at (shift_carry_text from Ror amount) out.new result }
{
    if amount == 0 {
        return put_around(out, at, b"(", from, b" & 1u)");
    }
    put_bit(out, at, from, amount - 1)
}

// The carry out of a shifted register: nothing where C stays as it is.
pub fn put_shift_carry(
    out: &mut [u8],
    at: usize,
    from: Source,
    kind: ShiftKind,
    amount: u8,
) -> usize
    ensures { Wrote out.old at (shift_carry_text from kind amount) out.new result }
{
    match kind {
        ShiftKind::Lsl => put_left_carry(out, at, from, amount),
        ShiftKind::Lsr => put_right_carry(out, at, from, amount),
        ShiftKind::Asr => put_right_carry(out, at, from, amount),
        ShiftKind::Ror => put_ror_carry(out, at, from, amount),
    }
}
