// The units from a given one on that fit what is lent, and the lengths of those that have a place.
ghost use Rattle.std.specs.Prelude.{ℕ, ◌≤◌};
ghost use Rattle.file_blocks.specs.Parse.{Accepted};
ghost use Rattle.plan_members.specs.Prepared.{HoldsPlan};
ghost use Rattle.emit_units.specs.Units.{StartsAt};
ghost use Rattle.emit_units.specs.Bounds.{Bounds};
ghost use Rattle.emit_units.specs.Fronts.{FitUnit, PutUnits, PutLengths};
ghost use Rattle.plan_groups.specs.Groups.{HasRoom};

use crate::bounds::unit_bound;
use crate::extents::{Extent, measure_unit, put_unit};

// Some units of which only the lengths are told: how many they are, the row after the last of them,
// and whether that is the last of the file.
#[derive(Clone, Copy)]
pub struct Lengths {
    pub count: usize,
    pub end: usize,
    pub last: bool,
}

// Some units: how many they are, the bytes of their texts in all, the row after the last of them,
// and whether that is the last of the file.
#[derive(Clone, Copy)]
pub struct Front {
    pub count: usize,
    pub length: usize,
    pub end: usize,
    pub last: bool,
}

// The first unit of the groups from row p on, where no unit is longer than `bound`. It is written
// from the front of `part` on if it fits, and measured first only where it might not.
fn fit_unit(
    part: &mut [u8],
    file: &[u8],
    work: &[u32],
    n: usize,
    max: u64,
    p: usize,
    bound: usize,
) -> Extent
    requires has_room { HasRoom file.now work.now n × (p ≤ n) }
    requires accepted { Accepted file.now }
    ensures within { result.end ≤ n }
    ensures unit { (limit k : ℕ) → HoldsPlan file.now n limit work.now
        → (s : StartsAt file.now limit max k p)
        → Bounds file.now limit max bound
        → FitUnit file.now limit max s.group part.old part.new result }
{
    if bound <= part.len() {
        return put_unit(part, file, work, n, max, p, true);
    }
    let e = measure_unit(file, work, n, max, p);
    if part.len() < e.length {
        return e;
    }
    put_unit(part, file, work, n, max, p, true)
}

// The units from the one on that begins at row p: as many whole ones as fit `text` and have a place
// in `lengths`. Their texts go one after another into the front of `text`, the length of each into
// the front of `lengths`.
pub fn put_units(
    text: &mut [u8],
    lengths: &mut [u64],
    file: &[u8],
    work: &[u32],
    n: usize,
    max: u64,
    p: usize,
) -> Front
    requires has_room { HasRoom file.now work.now n × (p ≤ n) }
    requires accepted { Accepted file.now }
    ensures { (limit k : ℕ) → HoldsPlan file.now n limit work.now
        → StartsAt file.now limit max k p
        → PutUnits file.now limit max k p text.old lengths.old
        text.new lengths.new result }
{
    let bound = unit_bound(file, work, n, max);
    let mut length = 0;
    let mut end = p;
    for count in 0..lengths.len() {
        let e = fit_unit(&mut text[length..], file, work, n, max, end, bound);
        if text.len() - length < e.length {
            return Front {
                count,
                length,
                end,
                last: false,
            };
        }
        lengths[count] = e.length as u64;
        length += e.length;
        end = e.end;
        if e.last {
            return Front {
                count: count + 1,
                length,
                end,
                last: true,
            };
        }
    }
    Front {
        count: lengths.len(),
        length,
        end,
        last: false,
    }
}

// The lengths of the units from the one on that begins at row p, as many as have a place in
// `lengths`, in its front.
pub fn put_lengths(
    lengths: &mut [u64],
    file: &[u8],
    work: &[u32],
    n: usize,
    max: u64,
    p: usize,
) -> Lengths
    requires has_room { HasRoom file.now work.now n × (p ≤ n) }
    requires accepted { Accepted file.now }
    ensures { (limit k : ℕ) → HoldsPlan file.now n limit work.now
        → StartsAt file.now limit max k p
        → PutLengths file.now limit max k p lengths.old
        lengths.new result }
{
    let mut end = p;
    for (count, told) in lengths.iter_mut().enumerate() {
        let e = measure_unit(file, work, n, max, end);
        *told = e.length as u64;
        end = e.end;
        if e.last {
            return Lengths {
                count: count + 1,
                end,
                last: true,
            };
        }
    }
    Lengths {
        count: lengths.len(),
        end,
        last: false,
    }
}
