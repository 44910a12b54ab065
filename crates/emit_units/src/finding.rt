// Where the unit with a number begins, and the unit.
ghost use Rattle.std.specs.Prelude.{ℕ, ◌≤◌};
ghost use Rattle.base_text.specs.Wrote.{Wrote};
ghost use Rattle.file_blocks.specs.Parse.{Accepted};
ghost use Rattle.plan_members.specs.Prepared.{HoldsPlan};
ghost use Rattle.c_tree.specs.Print.{unit_text};
ghost use Rattle.emit_units.specs.Units.{StartWithin, IsFoundStart, IsFoundUnit, IsUnit};
ghost use Rattle.plan_groups.specs.Groups.{HasRoom};

use crate::extents::{Extent, measure_unit, put_unit};

// The row where unit k begins at a wished size, in an accepted file with n blocks, if there is one.
pub fn find_start(file: &[u8], work: &[u32], n: usize, max: u64, k: u64) -> Option<usize>
    requires has_room { HasRoom file.now work.now n }
    requires accepted { Accepted file.now }
    ensures within { StartWithin n result }
    ensures start { (limit : ℕ) → HoldsPlan file.now n limit work.now
        → IsFoundStart file.now limit max k result }
{
    let mut p = 0;
    for _ in 0..k {
        let unit = measure_unit(file, work, n, max, p);
        if unit.last {
            return None;
        }
        p = unit.end;
    }
    Some(p)
}

// Unit k at a wished size, of an accepted file with n blocks, if there is one.
pub fn find_unit(file: &[u8], work: &[u32], n: usize, max: u64, k: u64) -> Option<Extent>
    requires has_room { HasRoom file.now work.now n }
    requires accepted { Accepted file.now }
    ensures { (limit : ℕ) → HoldsPlan file.now n limit work.now
        → IsFoundUnit file.now limit max k result }
{
    let p = find_start(file, work, n, max, k)?;
    Some(measure_unit(file, work, n, max, p))
}

// The unit of an extent, with its hashes, from the front of `out` on.
pub fn write_unit(out: &mut [u8], file: &[u8], work: &[u32], n: usize, max: u64, e: Extent) -> usize
    requires has_room { HasRoom file.now work.now n × (e.start ≤ n) }
    requires accepted { Accepted file.now }
    ensures { (limit k : ℕ) → HoldsPlan file.now n limit work.now
        → (is : IsUnit file.now limit max k e)
        → Wrote out.old 0 (unit_text is.unit.tree) out.new result }
{
    let unit = put_unit(out, file, work, n, max, e.start, true);
    unit.length
}
