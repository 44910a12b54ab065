// The entries of a group's function: the cases of its switch, and the functions of its members.
ghost use Rattle.std.specs.Prelude.{List, ◌∷◌, map, ℕ};
ghost use Rattle.base_text.specs.Wrote.{Wrote};
ghost use Rattle.c_tree.specs.Print.{cases_text, unit_text};
ghost use Rattle.lower_forms.specs.Forms.{Body};
ghost use Rattle.lower_units.specs.Block.{body_key};
ghost use Rattle.lower_units.specs.Units.{forwarders};
ghost use Rattle.plan_members.specs.Members.{group_keys};
ghost use Rattle.plan_members.specs.GroupRows.{HasRows, IsGroup};
ghost use Rattle.emit_tables.specs.Tables.{HaveKeys};

use crate::heads::{put_case, put_forwarder};
use plan_members::{Rows, row_key};

// The cases of the group in some rows.
pub fn put_cases(out: &mut [u8], at: usize, file: &[u8], work: &[u32], rows: Rows) -> usize
    requires { HasRows file.now work.now rows }
    ensures { (limit g : ℕ) → IsGroup file.now limit work.now g rows
        → (bs : List Body) → HaveKeys bs (group_keys limit file.now g)
        → Wrote out.old at (cases_text 0 (map body_key bs)) out.new result }
{
    let size = rows.end - rows.first;
    let mut q = at;
    for k in 0..size {
        q = put_case(out, q, k as u64, row_key(file, work, rows.first + k));
    }
    q
}

// The functions of the members of the group in some rows, and an empty line.
pub fn put_forwarders(out: &mut [u8], at: usize, file: &[u8], work: &[u32], rows: Rows) -> usize
    requires { HasRows file.now work.now rows }
    ensures { (limit g : ℕ) → IsGroup file.now limit work.now g rows
        → (b : Body) (bs : List Body)
        → HaveKeys (b ∷ bs) (group_keys limit file.now g)
        → Wrote out.old at (unit_text (forwarders (body_key b) 0 (b ∷ bs)))
        out.new result }
{
    let group = row_key(file, work, rows.first);
    let size = rows.end - rows.first;
    let mut q = at;
    for k in 0..size {
        q = put_forwarder(out, q, row_key(file, work, rows.first + k), group, k as u64);
    }
    base_text::put(out, q, b"\n")
}
