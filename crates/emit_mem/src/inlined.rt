// Whether a Mem is inlined: not if it loads or stores PC, or if its offset is shifted by a register
// or by RRX.
ghost use Rattle.std.specs.Prelude.{◌≡◌, ℕ, not, ◌&&◌, ◌==◌};
ghost use Rattle.armv4t.specs.declared.Instr.{Instr};
ghost use Rattle.c_tree.specs.Expr.{Expr};
ghost use Rattle.lower_forms.specs.InlineBody.{shifted_offset, offset_expr};
ghost use Rattle.base_lists.specs.Lists.{is_some};

use armv4t::{MemOffset, PC, Shift, ShiftKind};

// Whether an offset shifted by an amount is inlined: not by RRX, which is Ror with amount 0.
fn kind_is_inlined(kind: ShiftKind, amount: u8) -> bool
    ensures { (e : Expr) → result ≡ is_some (shifted_offset e kind amount) }
{
    amount != 0 || !matches!(kind, ShiftKind::Ror)
}

// Whether a register as an offset is inlined, by its shift: not if that is by a register.
fn shift_is_inlined(shift: Shift) -> bool
    ensures { (i : Instr) (rm : ℕ) → result ≡ is_some (offset_expr i (MemOffset.Reg rm shift)) }
{
    match shift {
        Shift::Imm { kind, amount } => kind_is_inlined(kind, amount),
        Shift::Reg { kind, rs } => false,
    }
}

// Whether an offset is inlined; a value always is.
fn offset_is_inlined(offset: MemOffset) -> bool
    ensures { (i : Instr) → result ≡ is_some (offset_expr i offset) }
{
    match offset {
        MemOffset::Imm(value) => true,
        MemOffset::Reg { rm, shift } => shift_is_inlined(shift),
    }
}

// Whether a Mem is inlined, by rd and its offset.
pub fn mem_is_inlined(rd: u8, offset: MemOffset) -> bool
    ensures { (i : Instr) → result ≡ (not (rd == 15) && is_some (offset_expr i offset)) }
{
    rd != PC && offset_is_inlined(offset)
}
