// What stands before the code of a block outside ROM and BIOS, or in its place.
ghost use Rattle.std.specs.Prelude.{◌≡◌, true, List, ℕ};
ghost use Rattle.std.proofs.Math.Option.{none};
ghost use Rattle.base_text.specs.Wrote.{Wrote};
ghost use Rattle.c_tree.specs.Stmt.{guard, common, end, ◌⨾◌, when};
ghost use Rattle.c_tree.specs.Print.{code_text};
ghost use Rattle.lower_forms.specs.Forms.{Body};
ghost use Rattle.lower_units.specs.Block.{nl, sp, defer, under_guard};

// The guard: the interpreter where the code bytes are no longer those translated.
pub fn emit_guard(out: &mut [u8], at: usize, addr: u32, length: u64, hash: u64) -> usize
    ensures { (b : Body) → b.addr ≡ addr
        → Wrote out.old at
        (code_text
        (sp 4 ⨾ when common true (guard b.addr length hash) (sp 1 ⨾ defer b (sp 1 ⨾ end))
        (nl ⨾ end))) out.new result }
{
    let p = base_text::put_then_hex8(out, at, b"    if (!a->guard(m, 0x", addr);
    let q = base_text::put_then_dec(out, p, b"u, ", length);
    let s = base_text::put(out, q, b"u, 0x");
    let t = base_text::put_hex16(out, s, hash);
    let u = base_text::put_then_hex8(out, t, b"ull)) { c[15] = 0x", addr);
    base_text::put(out, u, b"u; return a->interp_one(m); }\n")
}

// The interpreter in the place of a block without code bytes.
pub fn emit_defer(out: &mut [u8], at: usize, addr: u32) -> usize
    ensures { (ks : List ℕ) (b : Body) → b.addr ≡ addr
        → Wrote out.old at (code_text (under_guard ks b none)) out.new result }
{
    let p = base_text::put_then_hex8(out, at, b"    c[15] = 0x", addr);
    base_text::put(out, p, b"u; return a->interp_one(m);\n")
}
