// Registers set to a word, and transfers.
ghost use Rattle.std.specs.Prelude.{◌≡◌, List, [], ◌∷◌, ℕ, false};
ghost use Rattle.base_text.specs.Wrote.{Wrote};
ghost use Rattle.c_tree.specs.Expr.{word, lit};
ghost use Rattle.c_tree.specs.Stmt.{gate, Owner, common, ret, ret_if, end, ◌⨾◌};
ghost use Rattle.c_tree.specs.Print.{code_text};
ghost use Rattle.lower_forms.specs.InlineBody.{each_on_line};
ghost use Rattle.lower_forms.specs.Block.{set_word, pc_line};
ghost use Rattle.lower_units.specs.Block.{nl, sp, goto_code, transfer};
ghost use Rattle.lower_units.specs.Lines.{lines_text};
ghost use Rattle.base_lists.specs.Lists.{among};
ghost use Rattle.emit_flow.specs.Pieces.{indent};

use crate::keys::put_then_key;
use armv4t::clear_bit0;

// r14 set to n.
pub(crate) fn set_lr(out: &mut [u8], at: usize, n: u32) -> usize
    ensures { Wrote out.old at (lines_text 4 (each_on_line (set_word 14 n ∷ []))) out.new
        result }
{
    let p = base_text::put_then_hex8(out, at, b"    c[14] = 0x", n);
    base_text::put(out, p, b"u;\n")
}

// r15 set to n.
pub(crate) fn set_pc(out: &mut [u8], at: usize, n: u32) -> usize
    ensures { Wrote out.old at (lines_text 4 (pc_line n)) out.new result }
{
    let p = base_text::put_then_hex8(out, at, b"    c[15] = 0x", n);
    base_text::put(out, p, b"u;\n")
}

// Four spaces, or eight.
fn put_indent(out: &mut [u8], at: usize, deep: bool) -> usize
    ensures { Wrote out.old at (code_text (sp (indent deep) ⨾ end)) out.new result }
{
    if deep {
        base_text::put(out, at, b"        ")
    } else {
        base_text::put(out, at, b"    ")
    }
}

// A goto in a line of its own.
fn put_goto(out: &mut [u8], at: usize, key: u32, deep: bool) -> usize
    ensures { Wrote out.old at (code_text (goto_code false common (indent deep) key end))
        out.new result }
{
    let p = put_indent(out, at, deep);
    let q = put_then_key(out, p, b"goto L_", key);
    base_text::put(out, q, b";\n")
}

// The chain gate before a goto.
fn put_gate(out: &mut [u8], at: usize, key: u32, deep: bool) -> usize
    ensures { Wrote out.old at
        (code_text (sp (indent deep) ⨾ ret_if common gate (lit word key) ⨾ nl ⨾ end))
        out.new result }
{
    let p = put_indent(out, at, deep);
    let q = base_text::put_then_hex8(out, p, b"if (a->chain_gate(m)) return 0x", key);
    base_text::put(out, q, b"u;\n")
}

// The return of a key.
fn put_return(out: &mut [u8], at: usize, key: u32, deep: bool) -> usize
    ensures { Wrote out.old at
        (code_text (sp (indent deep) ⨾ ret common (lit word key) ⨾ nl ⨾ end)) out.new result }
{
    let p = put_indent(out, at, deep);
    let q = base_text::put_then_hex8(out, p, b"return 0x", key);
    base_text::put(out, q, b"u;\n")
}

// Where a block goes.
#[derive(Clone, Copy)]
pub struct Exit {
    // The address of the block.
    pub src: u32,
    // The key that it goes to.
    pub key: u32,
    // Whether that is the key of a block of the same group.
    pub inside: bool,
}

// The transfer at an exit: a goto within the group, gated if it does not go up, or else a return.
pub(crate) fn transfer(out: &mut [u8], at: usize, e: Exit, deep: bool) -> usize
    ensures { (ks : List ℕ) (o : Owner) → among e.key ks ≡ e.inside
        → Wrote out.old at
        (code_text (transfer ks e.src o (indent deep) e.key end)) out.new result }
{
    if !e.inside {
        return put_return(out, at, e.key, deep);
    }
    let to = clear_bit0(e.key);
    if to <= e.src {
        let p = put_gate(out, at, e.key, deep);
        put_goto(out, p, e.key, deep)
    } else {
        put_goto(out, at, e.key, deep)
    }
}
