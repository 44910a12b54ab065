// Keys in the names of labels and functions.
ghost use Rattle.base_text.specs.Doc.{raw, ◌▸◌};
ghost use Rattle.base_text.specs.Wrote.{Wrote};
ghost use Rattle.c_tree.specs.Stmt.{label, end, ◌⨾◌};
ghost use Rattle.c_tree.specs.Print.{key_text, code_text};
ghost use Rattle.lower_units.specs.Block.{nl};

use armv4t::clear_bit0;

// The address of a key, and its instruction set.
fn put_key(out: &mut [u8], at: usize, key: u32) -> usize
    ensures { Wrote out.old at (key_text key) out.new result }
{
    let p = base_text::put_hex8(out, at, clear_bit0(key));
    if key % 2 == 1 {
        base_text::put(out, p, b"_t")
    } else {
        base_text::put(out, p, b"_a")
    }
}

// s and then a key.
pub fn put_then_key(out: &mut [u8], at: usize, s: &[u8], key: u32) -> usize
    ensures { Wrote out.old at (raw s.now ▸ key_text key) out.new result }
{
    let p = base_text::put(out, at, s);
    put_key(out, p, key)
}

// The label of a block in its group's function.
pub fn put_label(out: &mut [u8], at: usize, key: u32) -> usize
    ensures { Wrote out.old at (code_text (label key ⨾ nl ⨾ end)) out.new result }
{
    let p = put_then_key(out, at, b"L_", key);
    base_text::put(out, p, b":;\n")
}
