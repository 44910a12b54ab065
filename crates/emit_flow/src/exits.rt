// Branches, fused pairs, and the closing transfer.
ghost use Rattle.std.specs.Prelude.{◌≡◌, List, ◌++◌, ℕ};
ghost use Rattle.base_text.specs.Doc.{◌▸◌};
ghost use Rattle.base_text.specs.Wrote.{Wrote};
ghost use Rattle.armv4t.specs.Bit0.{set_bit0};
ghost use Rattle.c_tree.specs.Stmt.{Owner, common, Code, end, ◌⨾◌};
ghost use Rattle.c_tree.specs.Print.{code_text};
ghost use Rattle.lower_forms.specs.Forms.{jump};
ghost use Rattle.lower_forms.specs.InlineBody.{list_if, each_on_line};
ghost use Rattle.lower_forms.specs.Block.{flush_ticks, set_word, pc_line, emit_pair, branch_regs};
ghost use Rattle.lower_units.specs.Block.{nl, sp, line, transfer as Block·transfer, exit_code};
ghost use Rattle.lower_units.specs.Block.{native_text};
ghost use Rattle.lower_units.specs.Lines.{lines_text};
ghost use Rattle.base_lists.specs.Lists.{among};
ghost use Rattle.emit_flow.specs.Pieces.{after_condition, after_conditional};

use crate::flow::{Exit, set_lr, set_pc, transfer};
use armv4t::{clear_bit0, set_bit0};
use emit_writer::flush_ticks;

// The registers of a branch, after its condition.
fn put_taken(out: &mut [u8], at: usize, link: bool, ret: u32, target: u32) -> usize
    ensures { Wrote out.old at
        (after_condition ▸ code_text (sp 1 ⨾ line common (branch_regs link ret target) (nl ⨾ end)))
        out.new result }
{
    if link {
        let p = base_text::put_then_hex8(out, at, b") { c[14] = 0x", ret);
        let q = base_text::put_then_hex8(out, p, b"u; c[15] = 0x", target);
        base_text::put(out, q, b"u;\n")
    } else {
        let p = base_text::put_then_hex8(out, at, b") { c[15] = 0x", target);
        base_text::put(out, p, b"u;\n")
    }
}

// A conditional branch, after its condition.
pub fn branch_taken(out: &mut [u8], at: usize, link: bool, ret: u32, target: u32, e: Exit) -> usize
    ensures { (ks : List ℕ) (o : Owner) → among e.key ks ≡ e.inside
        → Wrote out.old at
        (after_condition
        ▸ code_text
        (sp 1 ⨾ line o (branch_regs link ret target)
        (nl ⨾ Block·transfer ks e.src o 8 e.key (sp 6 ⨾ end))) ▸ after_conditional)
        out.new result }
{
    let p = put_taken(out, at, link, ret, target);
    let q = transfer(out, p, e, true);
    base_text::put(out, q, b"      } }\n")
}

// r14 set where a branch links.
fn set_link(out: &mut [u8], at: usize, link: bool, ret: u32) -> usize
    ensures { Wrote out.old at (lines_text 4 (each_on_line (list_if link (set_word 14 ret))))
        out.new result }
{
    if link { set_lr(out, at, ret) } else { at }
}

// A branch that is always taken.
pub fn branch_always(
    out: &mut [u8],
    at: usize,
    cycles: u64,
    link: bool,
    ret: u32,
    target: u32,
    e: Exit,
) -> usize
    ensures { (ks : List ℕ) (o : Owner) (c : Code) → among e.key ks ≡ e.inside
        → Wrote out.old at
        (code_text
        (native_text ks e.src o
        (jump (flush_ticks cycles ++ each_on_line (branch_regs link ret target)) e.key) c))
        out.new result }
{
    let p = flush_ticks(out, at, cycles);
    let q = set_link(out, p, link, ret);
    let s = set_pc(out, q, target);
    transfer(out, s, e, false)
}

// A fused pair; inside is for the key of its target.
pub fn emit_pair(
    out: &mut [u8],
    at: usize,
    cycles: u64,
    target: u32,
    ret: u32,
    inside: bool,
    src: u32,
) -> usize
    ensures { (ks : List ℕ) (o : Owner) (c : Code) → among (set_bit0 target) ks ≡ inside
        → Wrote out.old at
        (code_text (native_text ks src o (emit_pair cycles target ret) c)) out.new result }
{
    let p = flush_ticks(out, at, cycles);
    let q = set_lr(out, p, ret);
    let s = set_pc(out, q, clear_bit0(target));
    let e = Exit {
        src,
        key: set_bit0(target),
        inside,
    };
    transfer(out, s, e, false)
}

// The end of a block that goes on at address `next`, whose key the exit has.
pub fn emit_closing(out: &mut [u8], at: usize, cycles: u64, next: u32, e: Exit) -> usize
    ensures { (ks : List ℕ) → among e.key ks ≡ e.inside
        → Wrote out.old at
        (code_text (exit_code ks e.src common (flush_ticks cycles ++ pc_line next) e.key))
        out.new result }
{
    let p = flush_ticks(out, at, cycles);
    let q = set_pc(out, p, next);
    transfer(out, q, e, false)
}
