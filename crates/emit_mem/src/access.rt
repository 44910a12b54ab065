// The access of a Mem, by its width and sign, and the write-back of its base.
ghost use Rattle.std.specs.Prelude.{true, false, not, ◌&&◌, [], ◌∷◌, ◌==◌};
ghost use Rattle.base_text.specs.Wrote.{Wrote};
ghost use Rattle.armv4t.specs.declared.MemWidth.TheVariants.{Byte, Half};
ghost use Rattle.c_tree.specs.Expr.{x-ob, reg, get};
ghost use Rattle.c_tree.specs.Preamble.{v32};
ghost use Rattle.c_tree.specs.Print.{expr_text};
ghost use Rattle.lower_forms.specs.InlineBody.{list_if, each_on_line, set_reg, loaded, stored};
ghost use Rattle.lower_units.specs.Lines.{lines_text};
ghost use Rattle.emit_mem.specs.Mem.{access_of};

use crate::mem::Transfer;
use armv4t::{MemWidth, PC};
use base_text::{put, put_then_dec};

// A byte as it is loaded.
fn put_byte(out: &mut [u8], at: usize, signed: bool) -> usize
    ensures { Wrote out.old at (expr_text (loaded Byte signed)) out.new result }
{
    if signed {
        put(out, at, b"(uint32_t)(int32_t)(int8_t)a->read8(m, addr)")
    } else {
        put(out, at, b"a->read8(m, addr)")
    }
}

// A half-word as it is loaded: from an odd address a signed one is a byte, and another is turned.
fn put_half(out: &mut [u8], at: usize, signed: bool) -> usize
    ensures { Wrote out.old at (expr_text (loaded Half signed)) out.new result }
{
    if signed {
        put(
            out,
            at,
            b"((addr & 1u) ? (uint32_t)(int32_t)(int8_t)a->read8(m, addr) : (uint32_t)(int32_t)(int16_t)a->read16(m, addr))",
        )
    } else {
        put(
            out,
            at,
            b"ror32(a->read16(m, addr & ~1u), (addr & 1u) * 8u)",
        )
    }
}

// What is loaded.
fn put_loaded(out: &mut [u8], at: usize, width: MemWidth, signed: bool) -> usize
    ensures { Wrote out.old at (expr_text (loaded width signed)) out.new result }
{
    match width {
        MemWidth::Byte => put_byte(out, at, signed),
        MemWidth::Half => put_half(out, at, signed),
        MemWidth::Word => put(
            out,
            at,
            b"ror32(a->read32(m, addr & ~3u), (addr & 3u) * 8u)",
        ),
    }
}

// The line that loads.
fn put_load_line(out: &mut [u8], at: usize, width: MemWidth, signed: bool, rd: u8) -> usize
    ensures { Wrote out.old at
        (lines_text 8 (each_on_line (set_reg rd (loaded width signed) ∷ []))) out.new result }
{
    let p = put_then_dec(out, at, b"        c[", rd as u64);
    let q = put(out, p, b"] = ");
    let s = put_loaded(out, q, width, signed);
    put(out, s, b";\n")
}

// The line that stores.
fn put_store_line(out: &mut [u8], at: usize, width: MemWidth, rd: u8) -> usize
    ensures { Wrote out.old at (lines_text 8 (each_on_line (stored width (get (reg rd)) ∷ [])))
        out.new result }
{
    match width {
        MemWidth::Byte => {
            let p = put_then_dec(out, at, b"        a->write8(m, addr, c[", rd as u64);
            put(out, p, b"]);\n")
        }
        MemWidth::Half => {
            let p = put_then_dec(out, at, b"        a->write16(m, addr & ~1u, c[", rd as u64);
            put(out, p, b"]);\n")
        }
        MemWidth::Word => {
            let p = put_then_dec(out, at, b"        a->write32(m, addr & ~3u, c[", rd as u64);
            put(out, p, b"]);\n")
        }
    }
}

// The line that writes the base back.
fn put_moved_base(out: &mut [u8], at: usize, rn: u8) -> usize
    ensures { Wrote out.old at (lines_text 8 (each_on_line (set_reg rn (v32 x-ob) ∷ [])))
        out.new result }
{
    let p = put_then_dec(out, at, b"        c[", rn as u64);
    put(out, p, b"] = ob;\n")
}

// The write-back of a load, which does not undo the load.
fn put_load_ob(out: &mut [u8], at: usize, rd: u8, rn: u8, wb: bool) -> usize
    ensures { Wrote out.old at
        (lines_text 8
        (each_on_line (list_if (wb && not (rn == rd) && not (rn == 15)) (set_reg rn (v32 x-ob)))))
        out.new result }
{
    if rn == rd {
        return at;
    }
    put_store_ob(out, at, rn, wb)
}

// The write-back of a store.
fn put_store_ob(out: &mut [u8], at: usize, rn: u8, wb: bool) -> usize
    ensures { Wrote out.old at
        (lines_text 8 (each_on_line (list_if (wb && not (rn == 15)) (set_reg rn (v32 x-ob)))))
        out.new result }
{
    if wb {
        if rn == PC {
            return at;
        }
        return put_moved_base(out, at, rn);
    }
    at
}

// The lines of a load after its address: the write-back of the base, then the load.
fn put_mem_load(out: &mut [u8], at: usize, m: Transfer, wb: bool) -> usize
    ensures { Wrote out.old at (lines_text 8 (each_on_line (access_of true m wb)))
        out.new result }
{
    let width = m.width;
    let p = put_load_ob(out, at, m.rd, m.rn, wb);
    put_load_line(out, p, width, m.signed, m.rd)
}

// The lines of a store after its address: the store, then the write-back of the base.
fn put_mem_store(out: &mut [u8], at: usize, m: Transfer, wb: bool) -> usize
    ensures { Wrote out.old at (lines_text 8 (each_on_line (access_of false m wb)))
        out.new result }
{
    let width = m.width;
    let p = put_store_line(out, at, width, m.rd);
    put_store_ob(out, p, m.rn, wb)
}

// The lines of a Mem after its address; wb: the base is written back.
pub(crate) fn put_access(out: &mut [u8], at: usize, m: Transfer, wb: bool) -> usize
    ensures { Wrote out.old at (lines_text 8 (each_on_line (access_of m.load m wb)))
        out.new result }
{
    if m.load {
        put_mem_load(out, at, m, wb)
    } else {
        put_mem_store(out, at, m, wb)
    }
}
