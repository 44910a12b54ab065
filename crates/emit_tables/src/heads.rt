// Heads and ends of the functions of blocks and groups.
ghost use Rattle.std.specs.Prelude.{[], ◌∷◌};
ghost use Rattle.base_text.specs.Wrote.{Wrote};
ghost use Rattle.c_tree.specs.Stmt.{call, end, ◌⨾◌, block, function};
ghost use Rattle.c_tree.specs.Print.{cases_text, code_text, top_text};
ghost use Rattle.lower_units.specs.Block.{nl, sp};
ghost use Rattle.emit_tables.specs.Heads.{block_open, function_end, group_open, switch_end};

use emit_flow::put_then_key;

// The head of a lone block's function.
pub fn put_block_head(out: &mut [u8], at: usize, key: u32) -> usize
    ensures { Wrote out.old at (block_open key) out.new result }
{
    let p = put_then_key(out, at, b"uint32_t b_", key);
    base_text::put(
        out,
        p,
        b"(const RtApi* a, void* m) {\n    uint32_t* c = (uint32_t*)m;\n    uint32_t pc; (void)pc;\n",
    )
}

// The end of a function, and an empty line.
pub fn put_function_end(out: &mut [u8], at: usize) -> usize
    ensures { Wrote out.old at function_end out.new result }
{
    base_text::put(out, at, b"}\n\n")
}

// The head of a group's function, up to the first case of its switch.
pub fn put_group_head(out: &mut [u8], at: usize, key: u32) -> usize
    ensures { Wrote out.old at (group_open key) out.new result }
{
    let p = base_text::put_then_hex8(out, at, b"static uint32_t g_", key);
    base_text::put(
        out,
        p,
        b"(const RtApi* a, void* m, uint32_t entry) {\n    uint32_t* c = (uint32_t*)m;\n    uint32_t pc; (void)pc;\n    switch (entry) {\n",
    )
}

// The case of member n.
pub(crate) fn put_case(out: &mut [u8], at: usize, n: u64, key: u32) -> usize
    ensures { Wrote out.old at (cases_text n (key ∷ [])) out.new result }
{
    let p = base_text::put_then_dec(out, at, b"    case ", n);
    let q = put_then_key(out, p, b"u: goto L_", key);
    base_text::put(out, q, b";\n")
}

// The end of the switch.
pub fn put_switch_end(out: &mut [u8], at: usize) -> usize
    ensures { Wrote out.old at switch_end out.new result }
{
    base_text::put(out, at, b"    default: return 0u;\n    }\n")
}

// The end of a member's code, in its group's function.
pub fn put_member_end(out: &mut [u8], at: usize) -> usize
    ensures { Wrote out.old at (code_text (nl ⨾ end)) out.new result }
{
    base_text::put(out, at, b"\n")
}

// The function of member n, which enters the function of its group.
pub(crate) fn put_forwarder(out: &mut [u8], at: usize, key: u32, group: u32, n: u64) -> usize
    ensures { Wrote out.old at
        (top_text (function (block key) (sp 1 ⨾ call group n ⨾ sp 1 ⨾ end))) out.new result }
{
    let p = put_then_key(out, at, b"uint32_t b_", key);
    let q = base_text::put_then_hex8(out, p, b"(const RtApi* a, void* m) { return g_", group);
    let s = base_text::put_then_dec(out, q, b"(a, m, ", n);
    base_text::put(out, s, b"u); }\n")
}
