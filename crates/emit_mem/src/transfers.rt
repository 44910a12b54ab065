// The loads and stores of a BlockMem, a line for each register.
ghost use Rattle.std.specs.Prelude.{◌≡◌, ◌+◌, ◌%◌, ◌^◌, [], ◌∷◌, if◌then◌else◌};
ghost use Rattle.base_text.specs.Wrote.{Wrote};
ghost use Rattle.base_text.specs.Doc.{text, dec, ◌▸◌, spaces};
ghost use Rattle.c_tree.specs.Stmt.{common, end};
ghost use Rattle.armv4t.specs.Instr.{pc_value};
ghost use Rattle.c_tree.specs.Expr.{word, lit};
ghost use Rattle.c_tree.specs.Print.{expr_text, code_text};
ghost use Rattle.lower_forms.specs.InlineBody.{list_if, listed, loads, moved_base, stores_moved};
ghost use Rattle.lower_forms.specs.InlineBody.{stores};
ghost use Rattle.armv4t.specs.RegisterList.{is_listed};
ghost use Rattle.lower_units.specs.Block.{lines};
ghost use Rattle.lower_units.specs.Lines.{lines_text};
ghost use Rattle.emit_mem.specs.BlockMem.{stored_of};

use armv4t::{Instr, is_listed};
use base_text::{put, put_then_dec};
use emit_operands::{put_place, put_word};

// The indent of a line, 6 in a pop, and the register that it sets.
fn put_target(out: &mut [u8], at: usize, pop: bool, r: u8) -> usize
    ensures { Wrote out.old at (spaces (if pop then 6 else 8) ▸ text "c[" ▸ dec r) out.new result }
{
    if pop {
        put_then_dec(out, at, b"      c[", r as u64)
    } else {
        put_then_dec(out, at, b"        c[", r as u64)
    }
}

// The line that loads a register.
fn put_load(out: &mut [u8], at: usize, pop: bool, r: u8) -> usize
    ensures { Wrote out.old at (code_text (lines common (if pop then 6 else 8) (loads (r ∷ [])) end))
        out.new result }
{
    let p = put_target(out, at, pop, r);
    put(out, p, b"] = a->read32(m, addr & ~3u); addr += 4u;\n")
}

// The line that loads a register, if it is listed.
fn put_listed_load(out: &mut [u8], at: usize, pop: bool, rlist: u16, r: u8) -> usize
    ensures { Wrote out.old at
        (code_text (lines common (if pop then 6 else 8) (loads (list_if (is_listed rlist r) r)) end))
        out.new result }
{
    if is_listed(rlist, r) {
        return put_load(out, at, pop, r);
    }
    at
}

// The loads of the registers listed below limit, at indent 6 in a pop, else at 8.
pub(crate) fn put_loads(out: &mut [u8], at: usize, pop: bool, rlist: u16, limit: u8) -> usize
    ensures { Wrote out.old at
        (code_text (lines common (if pop then 6 else 8) (loads (listed rlist limit)) end))
        out.new result }
{
    let mut p = at;
    for r in 0..limit {
        p = put_listed_load(out, p, pop, rlist, r);
    }
    p
}

// The base after total bytes.
pub(crate) fn put_moved(out: &mut [u8], at: usize, up: bool, total: u32) -> usize
    ensures { Wrote out.old at (expr_text (moved_base up total)) out.new result }
{
    if up {
        let p = put_then_dec(out, at, b"base + ", total as u64);
        put(out, p, b"u")
    } else {
        let p = put_then_dec(out, at, b"base - ", total as u64);
        put(out, p, b"u")
    }
}

// What a store of PC stores.
fn put_stored_pc(out: &mut [u8], at: usize, i: Instr) -> usize
    ensures { Wrote out.old at (expr_text (lit word ((pc_value i + 4) % 2 ^ 32)))
        out.new result }
{
    let pc = std::num::wrapping_add_u32(i.pc_value(), 4);
    put_word(out, at, pc)
}

// What a store of registers stores depends on: the instruction, its base, whether that is written
// back, the lowest register listed, and the base after the store, up or down by total bytes.
#[derive(Clone, Copy)]
pub(crate) struct Stored {
    pub i: Instr,
    pub rn: u8,
    pub writeback: bool,
    pub lowest: u8,
    pub up: bool,
    pub total: u32,
}

// Whether the base is stored as it is after: it is written back, and is not the lowest listed.
fn stores_moved(writeback: bool, lowest: u8, rn: u8) -> bool
    ensures { result ≡ stores_moved writeback lowest rn }
{
    writeback && rn != lowest
}

// What is stored of a register.
fn put_stored(out: &mut [u8], at: usize, s: Stored, r: u8) -> usize
    ensures { Wrote out.old at (expr_text (stored_of s r)) out.new result }
{
    if r == 15 {
        let i = s.i;
        return put_stored_pc(out, at, i);
    }
    if r == s.rn {
        if stores_moved(s.writeback, s.lowest, r) {
            return put_moved(out, at, s.up, s.total);
        }
        return put(out, at, b"base");
    }
    put_place(out, at, r)
}

// The line that stores a register.
fn put_store(out: &mut [u8], at: usize, s: Stored, r: u8) -> usize
    ensures { Wrote out.old at (lines_text 8 (stores (stored_of s) (r ∷ []))) out.new result }
{
    let p = put(out, at, b"        a->write32(m, addr & ~3u, ");
    let q = put_stored(out, p, s, r);
    put(out, q, b"); addr += 4u;\n")
}

// The line that stores a register, if it is listed.
fn put_listed_store(out: &mut [u8], at: usize, s: Stored, rlist: u16, r: u8) -> usize
    ensures { Wrote out.old at
        (lines_text 8 (stores (stored_of s) (list_if (is_listed rlist r) r)))
        out.new result }
{
    if is_listed(rlist, r) {
        return put_store(out, at, s, r);
    }
    at
}

// The stores of the registers listed.
pub(crate) fn put_stores(out: &mut [u8], at: usize, s: Stored, rlist: u16) -> usize
    ensures { Wrote out.old at (lines_text 8 (stores (stored_of s) (listed rlist 16)))
        out.new result }
{
    let mut p = at;
    for r in 0..16 {
        p = put_listed_store(out, p, s, rlist, r);
    }
    p
}
