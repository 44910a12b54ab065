// The end of the last unit: declarations, table and count of all blocks.
ghost use Rattle.std.specs.Prelude.{◌≡◌, List, ℕ};
ghost use Rattle.base_text.specs.Doc.{each};
ghost use Rattle.base_text.specs.Wrote.{Wrote};
ghost use Rattle.file_records.specs.Trailer.{block_count};
ghost use Rattle.file_blocks.specs.Parse.{Accepted};
ghost use Rattle.file_keys.specs.Order.{block_keys};
ghost use Rattle.c_tree.specs.Stmt.{extern};
ghost use Rattle.c_tree.specs.Print.{row_text, top_text, unit_text};
ghost use Rattle.lower_forms.specs.Forms.{Body};
ghost use Rattle.lower_units.specs.Units.{last_unit_end};
ghost use Rattle.emit_tables.specs.Tables.{HaveKeys};

use crate::tables::{put_count, put_extern, put_row, put_table_end, put_table_head};
use plan_members::block_key;

// The declarations of the functions of n blocks.
fn put_externs(out: &mut [u8], at: usize, file: &[u8], n: usize) -> usize
    requires { (n ≡ block_count file.now) × Accepted file.now }
    ensures { Wrote out.old at
        (each (λ (k : ℕ). top_text (extern k)) (block_keys file.now)) out.new
        result }
{
    let mut p = at;
    for i in 0..n {
        p = put_extern(out, p, block_key(file, i));
    }
    p
}

// The rows of n blocks in the table.
fn put_rows(out: &mut [u8], at: usize, file: &[u8], n: usize) -> usize
    requires { (n ≡ block_count file.now) × Accepted file.now }
    ensures { Wrote out.old at (each row_text (block_keys file.now)) out.new
        result }
{
    let mut p = at;
    for i in 0..n {
        p = put_row(out, p, block_key(file, i));
    }
    p
}

// The end of the last unit of an accepted file with n blocks.
pub fn put_tail(out: &mut [u8], at: usize, file: &[u8], n: usize) -> usize
    requires { (n ≡ block_count file.now) × Accepted file.now }
    ensures { (bs : List Body) → HaveKeys bs (block_keys file.now)
        → Wrote out.old at (unit_text (last_unit_end bs)) out.new result }
{
    let p = put_externs(out, at, file, n);
    let q = put_table_head(out, p);
    let s = put_rows(out, q, file, n);
    let t = put_table_end(out, s);
    put_count(out, t, n as u64)
}
