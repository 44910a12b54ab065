// Writers of conditions, registers and shifted operands. Each writes the text of an expression into
// out at index `at`, and answers the index after it.
#![tactic(auto)]

mod shifts;

ghost use Rattle.std.specs.Prelude.{◌≡◌, ℕ};
ghost use Rattle.armv4t.specs.declared.Instr.{Instr};
ghost use Rattle.base_text.specs.Doc.{raw, ◌▸◌};
ghost use Rattle.base_text.specs.Wrote.{Wrote};
ghost use Rattle.c_tree.specs.Expr.{word, reg, Expr, lit, get};
ghost use Rattle.c_tree.specs.Print.{expr_text};
ghost use Rattle.lower_forms.specs.Operands.{cond_expr, shift_exprs, op2_exprs, reg_of};
ghost use Rattle.lower_forms.specs.Operands.{operand_of};
ghost use Rattle.base_lists.specs.Lists.{is_some};
ghost use Rattle.emit_operands.specs.Operands.{carry_text, source_expr};

use armv4t::{Cond, Operand2, Reg, Shift, ShiftKind};
pub use shifts::{put_shift_carry, put_shift_value};

// A condition, without parentheses around it.
pub fn put_cond_expr(out: &mut [u8], at: usize, cond: Cond) -> usize
    ensures { Wrote out.old at (expr_text (cond_expr cond)) out.new result }
{
    match cond {
        Cond::Eq => base_text::put(out, at, b"cz"),
        Cond::Ne => base_text::put(out, at, b"!cz"),
        Cond::Cs => base_text::put(out, at, b"cc"),
        Cond::Cc => base_text::put(out, at, b"!cc"),
        Cond::Mi => base_text::put(out, at, b"cn"),
        Cond::Pl => base_text::put(out, at, b"!cn"),
        Cond::Vs => base_text::put(out, at, b"cv"),
        Cond::Vc => base_text::put(out, at, b"!cv"),
        Cond::Hi => base_text::put(out, at, b"cc && !cz"),
        Cond::Ls => base_text::put(out, at, b"!cc || cz"),
        Cond::Ge => base_text::put(out, at, b"cn == cv"),
        Cond::Lt => base_text::put(out, at, b"cn != cv"),
        Cond::Gt => base_text::put(out, at, b"!cz && cn == cv"),
        Cond::Le => base_text::put(out, at, b"cz || cn != cv"),
        Cond::Al => base_text::put(out, at, b"1"),
        Cond::Nv => base_text::put(out, at, b"1"),
    }
}

// A constant with 8 hexadecimal digits.
pub fn put_word(out: &mut [u8], at: usize, value: u32) -> usize
    ensures { Wrote out.old at (expr_text (lit word value)) out.new result }
{
    let p = base_text::put_then_hex8(out, at, b"0x", value);
    base_text::put(out, p, b"u")
}

// A register as such.
pub fn put_place(out: &mut [u8], at: usize, n: Reg) -> usize
    ensures { Wrote out.old at (expr_text (get (reg n))) out.new result }
{
    let p = base_text::put_then_dec(out, at, b"c[", n as u64);
    base_text::put(out, p, b"]")
}

// A register as an instruction reads it whose PC value is pc.
pub fn put_reg(out: &mut [u8], at: usize, n: Reg, pc: u32) -> usize
    ensures { Wrote out.old at (expr_text (reg_of pc n)) out.new result }
{
    if n == 15 {
        put_word(out, at, pc)
    } else {
        put_place(out, at, n)
    }
}

// A register that is shifted: its number, and the PC value of the instruction that reads it.
#[derive(Clone, Copy)]
pub struct Source {
    pub n: Reg,
    pub pc: u32,
}

// s, the register and t.
pub(crate) fn put_around(out: &mut [u8], at: usize, s: &[u8], from: Source, t: &[u8]) -> usize
    ensures { Wrote out.old at
        (raw s.now ▸ expr_text (source_expr from) ▸ raw t.now)
        out.new result }
{
    let p = base_text::put(out, at, s);
    let q = put_reg(out, p, from.n, from.pc);
    base_text::put(out, q, t)
}

// A register operand. The interpreter is to carry out a shift by a register, so no one asks for its
// text.
fn put_shifted(out: &mut [u8], at: usize, rm: Reg, shift: Shift, pc: u32) -> usize
    ensures { Wrote out.old at (expr_text (operand_of pc (Operand2.Reg rm shift)).0)
        out.new result }
{
    match shift {
        Shift::Imm { kind, amount } => put_shift_value(out, at, Source { n: rm, pc }, kind, amount),
        Shift::Reg { kind, rs } => put_reg(out, at, rm, pc),
    }
}

// The second operand.
pub fn put_op2_value(out: &mut [u8], at: usize, op2: Operand2, pc: u32) -> usize
    ensures { Wrote out.old at (expr_text (operand_of pc op2).0) out.new result }
{
    match op2 {
        Operand2::Imm { value, ror } => put_word(out, at, value),
        Operand2::Reg { rm, shift } => put_shifted(out, at, rm, shift, pc),
    }
}

// The carry out of a rotated value.
fn put_sign(out: &mut [u8], at: usize, value: u32, ror: u8) -> usize
    ensures { Wrote out.old at (carry_text (operand_of 0 (Operand2.Imm value ror)).1)
        out.new result }
{
    if ror == 0 {
        return at;
    }
    let p = base_text::put_dec(out, at, (value / 0x8000_0000 % 2) as u64);
    base_text::put(out, p, b"u")
}

// The carry out of a register operand.
fn put_shifted_carry(out: &mut [u8], at: usize, rm: Reg, shift: Shift, pc: u32) -> usize
    ensures { Wrote out.old at (carry_text (operand_of pc (Operand2.Reg rm shift)).1)
        out.new result }
{
    match shift {
        Shift::Imm { kind, amount } => put_shift_carry(out, at, Source { n: rm, pc }, kind, amount),
        Shift::Reg { kind, rs } => at,
    }
}

// The carry out of the second operand: nothing where C stays as it is.
pub fn put_op2_carry(out: &mut [u8], at: usize, op2: Operand2, pc: u32) -> usize
    ensures { Wrote out.old at (carry_text (operand_of pc op2).1) out.new result }
{
    match op2 {
        Operand2::Imm { value, ror } => put_sign(out, at, value, ror),
        Operand2::Reg { rm, shift } => put_shifted_carry(out, at, rm, shift, pc),
    }
}

// Whether a register operand can be written, by its shift: not if that is by a register.
fn shift_is_native(shift: Shift) -> bool
    ensures { (i : Instr) (rm : ℕ) → result ≡ is_some (op2_exprs i (Operand2.Reg rm shift)) }
{
    matches!(shift, Shift::Imm { .. })
}

// Whether the second operand can be written.
pub fn op2_is_native(op2: Operand2) -> bool
    ensures { (i : Instr) → result ≡ is_some (op2_exprs i op2) }
{
    match op2 {
        Operand2::Imm { value, ror } => true,
        Operand2::Reg { rm, shift } => shift_is_native(shift),
    }
}

// Whether a shift of a register gives a carry.
fn kind_has_carry(kind: ShiftKind, amount: u8) -> bool
    ensures { (e : Expr) → result ≡ is_some (shift_exprs e kind amount).1 }
{
    amount != 0 || !matches!(kind, ShiftKind::Lsl)
}

// Whether a register operand gives a carry, by its shift; a shift by a register counts as none.
fn shift_has_carry(shift: Shift) -> bool
    ensures { (pc rm : ℕ) → result ≡ is_some (operand_of pc (Operand2.Reg rm shift)).1 }
{
    match shift {
        Shift::Imm { kind, amount } => kind_has_carry(kind, amount),
        Shift::Reg { kind, rs } => false,
    }
}

// Whether the second operand gives a carry.
pub fn op2_has_carry(op2: Operand2) -> bool
    ensures { (pc : ℕ) → result ≡ is_some (operand_of pc op2).1 }
{
    match op2 {
        Operand2::Imm { value, ror } => ror != 0,
        Operand2::Reg { rm, shift } => shift_has_carry(shift),
    }
}
