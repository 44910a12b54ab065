// Mem: a single load or store.
ghost use Rattle.std.specs.Prelude.{◌≡◌, ◌*◌, ◌/◌, not, ◌||◌, [], ◌∷◌, if◌then◌else◌};
ghost use Rattle.std.proofs.Math.Option.{some};
ghost use Rattle.base_text.specs.Doc.{text, ◌▸◌};
ghost use Rattle.base_text.specs.Wrote.{Wrote};
ghost use Rattle.c_tree.specs.Expr.{word, uhex, x-base, x-ob, x-addr, operator, lit, par, bin};
ghost use Rattle.c_tree.specs.Preamble.{v32};
ghost use Rattle.c_tree.specs.Print.{expr_text};
ghost use Rattle.lower_forms.specs.Forms.{Lines};
ghost use Rattle.lower_forms.specs.InlineBody.{each_on_line, let32, base_expr, add_or_sub};
ghost use Rattle.lower_units.specs.Lines.{lines_text};
ghost use Rattle.emit_mem.specs.Mem.{offset_of, transfer_lines, whole_access, transfer_body};

use crate::access::put_access;
use armv4t::{Instr, MemOffset, MemWidth, Operand2, PC};
use base_text::{put, put_hex, put_then_hex8};
use emit_operands::{put_op2_value, put_place, put_reg};

// The fields of a Mem.
#[derive(Clone, Copy)]
pub struct Transfer {
    pub load: bool,
    pub width: MemWidth,
    pub signed: bool,
    pub rd: u8,
    pub rn: u8,
    pub offset: MemOffset,
    pub pre: bool,
    pub up: bool,
    pub writeback: bool,
}

// PC as a base in a Thumb block.
fn put_aligned(out: &mut [u8], at: usize, pc: u32) -> usize
    ensures { Wrote out.old at (expr_text (par (lit word (pc / 4 * 4)))) out.new result }
{
    let p = put_then_hex8(out, at, b"(0x", pc / 4 * 4);
    put(out, p, b"u)")
}

// The base.
fn put_base(out: &mut [u8], at: usize, thumb: bool, i: Instr, rn: u8) -> usize
    ensures { Wrote out.old at (expr_text (base_expr thumb i rn)) out.new result }
{
    let pc = i.pc_value();
    if thumb {
        if rn == PC {
            return put_aligned(out, at, pc);
        }
        return put_place(out, at, rn);
    }
    put_reg(out, at, rn, pc)
}

// An offset that is a number.
fn put_offset_value(out: &mut [u8], at: usize, value: u16) -> usize
    ensures { Wrote out.old at (expr_text (lit uhex value)) out.new result }
{
    let p = put(out, at, b"0x");
    let q = put_hex(out, p, value as u64);
    put(out, q, b"u")
}

// The offset.
fn put_offset(out: &mut [u8], at: usize, offset: MemOffset, pc: u32) -> usize
    ensures { Wrote out.old at (expr_text (offset_of pc offset)) out.new result }
{
    match offset {
        MemOffset::Imm(value) => put_offset_value(out, at, value),
        MemOffset::Reg { rm, shift } => put_op2_value(out, at, Operand2::Reg { rm, shift }, pc),
    }
}

// The line of the base.
fn put_base_line(out: &mut [u8], at: usize, thumb: bool, i: Instr, rn: u8) -> usize
    ensures { Wrote out.old at
        (lines_text 8 (each_on_line (let32 x-base (base_expr thumb i rn) ∷ []))) out.new result }
{
    let p = put(out, at, b"        uint32_t base = ");
    let q = put_base(out, p, thumb, i, rn);
    put(out, q, b";\n")
}

// The line of the base with its offset, up to the offset.
fn put_step(out: &mut [u8], at: usize, up: bool) -> usize
    ensures { Wrote out.old at
        (text "        uint32_t ob = base" ▸ text (operator (add_or_sub up)).0) out.new
        result }
{
    if up {
        put(out, at, b"        uint32_t ob = base + ")
    } else {
        put(out, at, b"        uint32_t ob = base - ")
    }
}

// The line of the base with its offset.
fn put_moved_base_line(out: &mut [u8], at: usize, up: bool, offset: MemOffset, pc: u32) -> usize
    ensures { Wrote out.old at
        (lines_text 8
        (each_on_line (let32 x-ob (bin (add_or_sub up) (v32 x-base) (offset_of pc offset)) ∷ [])))
        out.new result }
{
    let p = put_step(out, at, up);
    let q = put_offset(out, p, offset, pc);
    put(out, q, b";\n")
}

// The line of the address.
fn put_addr_line(out: &mut [u8], at: usize, pre: bool) -> usize
    ensures { Wrote out.old at
        (lines_text 8 (each_on_line (let32 x-addr (v32 (if pre then x-ob else x-base)) ∷ [])))
        out.new result }
{
    if pre {
        put(out, at, b"        uint32_t addr = ob;\n")
    } else {
        put(out, at, b"        uint32_t addr = base;\n")
    }
}

// The lines before the access.
fn put_address(out: &mut [u8], at: usize, thumb: bool, i: Instr, m: Transfer) -> usize
    ensures { Wrote out.old at (lines_text 8 (transfer_lines thumb i m [])) out.new result }
{
    let offset = m.offset;
    let pc = i.pc_value();
    let p = put_base_line(out, at, thumb, i, m.rn);
    let q = put_moved_base_line(out, p, m.up, offset, pc);
    put_addr_line(out, q, m.pre)
}

// Whether the base is written back: always after an access that does not count the offset.
fn writes_back(pre: bool, writeback: bool) -> bool
    ensures { result ≡ (not pre || writeback) }
{
    !pre || writeback
}

// All lines of a Mem, its offset said with no case left out.
fn put_mem_lines(out: &mut [u8], at: usize, thumb: bool, i: Instr, m: Transfer) -> usize
    ensures { Wrote out.old at (lines_text 8 (transfer_lines thumb i m (whole_access m)))
        out.new result }
{
    let wb = writes_back(m.pre, m.writeback);
    let p = put_address(out, at, thumb, i, m);
    put_access(out, p, m, wb)
}

// All lines of a Mem that is inlined.
pub fn put_mem(out: &mut [u8], at: usize, thumb: bool, i: Instr, m: Transfer) -> usize
    ensures { (ls : Lines) → transfer_body thumb i m ≡ some ls
        → Wrote out.old at (lines_text 8 ls) out.new result }
{
    put_mem_lines(out, at, thumb, i, m)
}
