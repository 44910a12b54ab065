// The pop of PC: a load of registers upwards from a base that is written back, PC among them, which
// ends the block.
ghost use Rattle.std.specs.Prelude.{◌≡◌, ◌+◌, ◌*◌, not, ◌&&◌, [], ◌∷◌, length, ◌==◌};
ghost use Rattle.base_text.specs.Doc.{text, ◌▸◌};
ghost use Rattle.base_text.specs.Wrote.{Wrote};
ghost use Rattle.armv4t.specs.declared.Instr.{Instr};
ghost use Rattle.armv4t.specs.Cond.{is_al};
ghost use Rattle.c_tree.specs.Expr.{udec, x-addr, reg, add, lit, get, bin};
ghost use Rattle.c_tree.specs.Stmt.{common, plain, end, ◌⨾◌};
ghost use Rattle.c_tree.specs.Print.{code_text};
ghost use Rattle.lower_forms.specs.InlineBody.{each_on_line, let32, set_reg, listed, loads};
ghost use Rattle.armv4t.specs.RegisterList.{is_listed};
ghost use Rattle.lower_forms.specs.Block.{is_pop, emit_pop};
ghost use Rattle.lower_units.specs.Block.{nl, lines, native_text};

use crate::block_mem::BlockTransfer;
use crate::registers::bytes_listed;
use crate::transfers::put_loads;
use armv4t::{PC, is_listed};
use base_text::{put, put_then_dec};

// The base, and the loads of the registers but PC.
fn put_pop_loads(out: &mut [u8], at: usize, rn: u8, rlist: u16) -> usize
    ensures { Wrote out.old at
        (text "    { "
        ▸ code_text
        (plain common (let32 x-addr (get (reg rn))) ⨾ nl
        ⨾ lines common 6 (loads (listed rlist 15)) end)) out.new result }
{
    let p = put_then_dec(out, at, b"    { uint32_t addr = c[", rn as u64);
    let q = put(out, p, b"];\n");
    put_loads(out, q, true, rlist, 15)
}

// The line that writes the base back.
fn put_pop_base(out: &mut [u8], at: usize, rn: u8, rlist: u16) -> usize
    ensures { Wrote out.old at
        (code_text
        (lines common 6
        (each_on_line
        (set_reg rn (bin add (get (reg rn)) (lit udec ((length (listed rlist 15) + 1) * 4)))
        ∷ [])) end)) out.new result }
{
    let total = bytes_listed(rlist, 15) + 4;
    let p = put_then_dec(out, at, b"      c[", rn as u64);
    let q = put_then_dec(out, p, b"] = c[", rn as u64);
    let s = put_then_dec(out, q, b"] + ", total as u64);
    put(out, s, b"u;\n")
}

// The text of a pop after its ticks.
pub fn put_pop(out: &mut [u8], at: usize, thumb: bool, rn: u8, rlist: u16) -> usize
    ensures { Wrote out.old at
        (code_text (native_text [] 0 common (emit_pop thumb 0 rn (listed rlist 15)) end))
        out.new result }
{
    let p = put_pop_loads(out, at, rn, rlist);
    let q = put_pop_base(out, p, rn, rlist);
    if thumb {
        put(
            out,
            q,
            b"      c[15] = a->read32(m, addr & ~3u) & ~1u; return c[15] | 1u; }\n",
        )
    } else {
        put(
            out,
            q,
            b"      c[15] = a->read32(m, addr & ~3u) & ~3u; return c[15] | 0u; }\n",
        )
    }
}

// Whether a BlockMem loads registers upwards from a base that is written back.
fn is_upward_load(load: bool, pre: bool, up: bool, s_bit: bool, writeback: bool) -> bool
    ensures { result ≡ (load && not pre && up && not s_bit && writeback) }
{
    load && !pre && up && !s_bit && writeback
}

// Whether a load is of PC, from another base, in a block outside region 0.
fn loads_pc(region: u32, rn: u8, rlist: u16) -> bool
    ensures { result ≡ (is_listed rlist 15 && not (rn == 15) && not (region == 0)) }
{
    is_listed(rlist, PC) && rn != PC && region != 0
}

// Whether a BlockMem is a pop of PC, in a block of a region; al: its condition is Al.
pub fn is_pop(region: u32, al: bool, m: BlockTransfer) -> bool
    ensures { (i : Instr) → al ≡ is_al i.cond
        → result ≡ is_pop region i m.load m.rn m.rlist m.pre m.up m.s_bit
        m.writeback }
{
    is_upward_load(m.load, m.pre, m.up, m.s_bit, m.writeback)
        && al
        && loads_pc(region, m.rn, m.rlist)
}
