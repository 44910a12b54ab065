// The end of the last unit: declarations, table and count.
ghost use Rattle.base_text.specs.Wrote.{Wrote};
ghost use Rattle.c_tree.specs.Stmt.{extern, count};
ghost use Rattle.c_tree.specs.Print.{row_text, top_text};
ghost use Rattle.emit_tables.specs.Heads.{table_open, table_end};

use emit_flow::put_then_key;

// The declaration of a block's function.
pub(crate) fn put_extern(out: &mut [u8], at: usize, key: u32) -> usize
    ensures { Wrote out.old at (top_text (extern key)) out.new result }
{
    let p = put_then_key(out, at, b"extern uint32_t b_", key);
    base_text::put(out, p, b"(const RtApi* a, void* m);\n")
}

// The head of the table.
pub(crate) fn put_table_head(out: &mut [u8], at: usize) -> usize
    ensures { Wrote out.old at table_open out.new result }
{
    base_text::put(out, at, b"RCG_EXPORT const RcgBlock rcg_blocks[] = {\n")
}

// The row of a block.
pub(crate) fn put_row(out: &mut [u8], at: usize, key: u32) -> usize
    ensures { Wrote out.old at (row_text key) out.new result }
{
    let p = base_text::put_then_hex8(out, at, b"    { 0x", key);
    let q = put_then_key(out, p, b"u, b_", key);
    base_text::put(out, q, b" },\n")
}

// The end of the table.
pub(crate) fn put_table_end(out: &mut [u8], at: usize) -> usize
    ensures { Wrote out.old at table_end out.new result }
{
    base_text::put(out, at, b"};\n")
}

// The number of blocks.
pub(crate) fn put_count(out: &mut [u8], at: usize, n: u64) -> usize
    ensures { Wrote out.old at (top_text (count n)) out.new result }
{
    let p = base_text::put_then_dec(out, at, b"RCG_EXPORT const uint64_t rcg_block_count = ", n);
    base_text::put(out, p, b";\n")
}
