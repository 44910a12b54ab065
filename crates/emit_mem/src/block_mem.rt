// BlockMem: LDM and STM.
ghost use Rattle.std.specs.Prelude.{◌≡◌, true, false, not, ◌&&◌, ◌||◌, [], ◌∷◌, ◌==◌};
ghost use Rattle.base_text.specs.Wrote.{Wrote};
ghost use Rattle.c_tree.specs.Print.{expr_text};
ghost use Rattle.lower_forms.specs.InlineBody.{each_on_line, set_reg, moved_base, start};
ghost use Rattle.armv4t.specs.RegisterList.{is_listed};
ghost use Rattle.lower_units.specs.Lines.{lines_text};
ghost use Rattle.emit_mem.specs.BlockMem.{base_back, base_lines, moves, block_body};

use crate::registers::{bytes_listed, lowest_listed};
use crate::transfers::{Stored, put_loads, put_moved, put_stores};
use armv4t::{Instr, PC, is_listed};
use base_text::{put, put_then_dec};

// The fields of a BlockMem.
#[derive(Clone, Copy)]
pub struct BlockTransfer {
    pub load: bool,
    pub rn: u8,
    pub rlist: u16,
    pub pre: bool,
    pub up: bool,
    pub s_bit: bool,
    pub writeback: bool,
}

// The lowest address, where the registers take total bytes downwards.
fn put_down(out: &mut [u8], at: usize, pre: bool, total: u32) -> usize
    ensures { Wrote out.old at (expr_text (start false pre total)) out.new result }
{
    let p = put_then_dec(out, at, b"base - ", total as u64);
    if pre {
        put(out, p, b"u")
    } else {
        put(out, p, b"u + 4u")
    }
}

// The lowest address.
fn put_start(out: &mut [u8], at: usize, up: bool, pre: bool, total: u32) -> usize
    ensures { Wrote out.old at (expr_text (start up pre total)) out.new result }
{
    if up {
        if pre {
            return put(out, at, b"base + 4u");
        }
        return put(out, at, b"base");
    }
    put_down(out, at, pre, total)
}

// The line that writes the base back.
fn put_write_back(out: &mut [u8], at: usize, rn: u8, up: bool, total: u32) -> usize
    ensures { Wrote out.old at (lines_text 8 (each_on_line (set_reg rn (moved_base up total) ∷ [])))
        out.new result }
{
    let p = put_then_dec(out, at, b"        c[", rn as u64);
    let q = put(out, p, b"] = ");
    let s = put_moved(out, q, up, total);
    put(out, s, b";\n")
}

// The write-back of a load: the base is written back if writeback is set and the base is not
// listed.
fn put_load_back(out: &mut [u8], at: usize, m: BlockTransfer, in_list: bool, total: u32) -> usize
    ensures { Wrote out.old at
        (lines_text 8 (base_back (m.writeback && not in_list) m total))
        out.new result }
{
    if in_list {
        return at;
    }
    put_store_back(out, at, m, total)
}

// The write-back of a store: the base is written back if writeback is set.
fn put_store_back(out: &mut [u8], at: usize, m: BlockTransfer, total: u32) -> usize
    ensures { Wrote out.old at (lines_text 8 (base_back m.writeback m total))
        out.new result }
{
    if m.writeback {
        return put_write_back(out, at, m.rn, m.up, total);
    }
    at
}

// The lines of a load after its start.
fn put_block_loads(out: &mut [u8], at: usize, i: Instr, m: BlockTransfer, total: u32) -> usize
    ensures { Wrote out.old at (lines_text 8 (moves true i m total)) out.new result }
{
    let in_list = is_listed(m.rlist, m.rn);
    let p = put_load_back(out, at, m, in_list, total);
    put_loads(out, p, false, m.rlist, 16)
}

// The lines of a store after its start.
fn put_block_stores(out: &mut [u8], at: usize, i: Instr, m: BlockTransfer, total: u32) -> usize
    ensures { Wrote out.old at (lines_text 8 (moves false i m total)) out.new result }
{
    let stored = Stored {
        i,
        rn: m.rn,
        writeback: m.writeback,
        lowest: lowest_listed(m.rlist),
        up: m.up,
        total,
    };
    let p = put_stores(out, at, stored, m.rlist);
    put_store_back(out, p, m, total)
}

// The base, and the lowest address.
fn put_block_base(out: &mut [u8], at: usize, m: BlockTransfer, total: u32) -> usize
    ensures { Wrote out.old at (lines_text 8 (base_lines m total)) out.new result }
{
    let p = put_then_dec(out, at, b"        uint32_t base = c[", m.rn as u64);
    let q = put(out, p, b"];\n        uint32_t addr = ");
    let s = put_start(out, q, m.up, m.pre, total);
    put(out, s, b";\n")
}

// The lines after the base, by the bytes that the registers take.
fn put_transfers(out: &mut [u8], at: usize, i: Instr, m: BlockTransfer, total: u32) -> usize
    ensures { Wrote out.old at (lines_text 8 (moves m.load i m total)) out.new result }
{
    if m.load {
        put_block_loads(out, at, i, m, total)
    } else {
        put_block_stores(out, at, i, m, total)
    }
}

// All lines of a BlockMem that is inlined.
pub fn put_block_mem(out: &mut [u8], at: usize, i: Instr, m: BlockTransfer) -> usize
    ensures { Wrote out.old at (lines_text 8 (block_body i m)) out.new result }
{
    let total = bytes_listed(m.rlist, 16);
    let p = put_block_base(out, at, m, total);
    put_transfers(out, p, i, m, total)
}

// Whether a BlockMem is inlined: not if it touches the user's registers or SPSR, names none, is
// based on PC or loads it.
pub fn block_mem_is_inlined(load: bool, rn: u8, rlist: u16, s_bit: bool) -> bool
    ensures { result ≡ not (s_bit || rlist == 0 || rn == 15 || (load && is_listed rlist 15)) }
{
    !(s_bit || rlist == 0 || rn == PC || (load && is_listed(rlist, PC)))
}
