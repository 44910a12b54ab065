// A record left to the interpreter.
ghost use Rattle.std.specs.Prelude.{◌++◌, ℕ};
ghost use Rattle.base_text.specs.Wrote.{Wrote};
ghost use Rattle.c_tree.specs.Stmt.{common, ret_interp, end, ◌⨾◌};
ghost use Rattle.c_tree.specs.Print.{code_text};
ghost use Rattle.lower_forms.specs.Forms.{Body};
ghost use Rattle.lower_forms.specs.Block.{flush_ticks, pc_line};
ghost use Rattle.lower_units.specs.Block.{nl, sp, lines, shell_code};

use crate::flow::set_pc;
use emit_writer::flush_ticks;

// One that has others after it: on to them if the interpreter comes to their key.
pub fn emit_shell(out: &mut [u8], at: usize, cycles: u64, addr: u32, expect: u32) -> usize
    ensures { (b : Body) (i : ℕ)
        → Wrote out.old at
        (code_text
        (lines common 4 (flush_ticks cycles ++ pc_line addr) (shell_code b i expect end)))
        out.new result }
{
    let p = flush_ticks(out, at, cycles);
    let q = set_pc(out, p, addr);
    let s = base_text::put_then_hex8(out, q, b"    pc = a->interp_one(m); if (pc != 0x", expect);
    base_text::put(out, s, b"u) return pc;\n")
}

// The last of a block.
pub fn emit_last_shell(out: &mut [u8], at: usize, cycles: u64, addr: u32) -> usize
    ensures { (k i : ℕ)
        → Wrote out.old at
        (code_text
        (lines common 4 (flush_ticks cycles ++ pc_line addr) (sp 4 ⨾ ret_interp k i ⨾ nl ⨾ end)))
        out.new result }
{
    let p = flush_ticks(out, at, cycles);
    let q = set_pc(out, p, addr);
    base_text::put(out, q, b"    return a->interp_one(m);\n")
}
