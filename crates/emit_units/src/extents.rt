// A unit: the rows that it takes, its length, and its text.
ghost use Rattle.std.specs.Prelude.{◌≡◌, ℕ, ◌≤◌, length};
ghost use Rattle.file_blocks.specs.Parse.{blocks_of, Accepted};
ghost use Rattle.plan_groups.specs.Plan.{groups};
ghost use Rattle.plan_members.specs.Members.{start_of};
ghost use Rattle.plan_members.specs.Prepared.{HoldsPlan};
ghost use Rattle.emit_units.specs.Units.{FirstUnit, MadeUnit};
ghost use Rattle.plan_groups.specs.Groups.{HasRoom};

use emit_group::emit_group;
use emit_tables::{put_preamble, put_tail};
use plan_members::{Rows, group_end};

// A unit: the rows from start to the one before end, the length of its text, and whether it is the
// last.
#[derive(Clone, Copy)]
pub struct Extent {
    pub start: usize,
    pub end: usize,
    pub length: usize,
    pub last: bool,
}

// The first unit of the groups from row p on, from the front of `out` on, with its hashes or with 0
// in their place.
pub(crate) fn put_unit(
    out: &mut [u8],
    file: &[u8],
    work: &[u32],
    n: usize,
    max: u64,
    p: usize,
    hashing: bool,
) -> Extent
    requires has_room { HasRoom file.now work.now n × (p ≤ n) }
    requires accepted { Accepted file.now }
    ensures within { result.end ≤ n }
    ensures unit { (limit g : ℕ) → HoldsPlan file.now n limit work.now
        → g ≤ length (groups limit (blocks_of file.now))
        → p ≡ start_of (groups limit (blocks_of file.now)) g
        → MadeUnit hashing file.now limit max g out.old out.new result }
{
    let mut at = put_preamble(out, 0);
    let mut q = p;
    // No index loop: the next group begins where `group_end` says.
    while q < n {
        let rows = Rows {
            blocks: n,
            first: q,
            end: group_end(work, n, q),
        };
        at = emit_group(out, at, file, work, rows, hashing);
        q = rows.end;
        if max <= at as u64 {
            return Extent {
                start: p,
                end: q,
                length: at,
                last: false,
            };
        }
    }
    Extent {
        start: p,
        end: q,
        length: put_tail(out, at, file, n),
        last: true,
    }
}

// The first unit of the groups from row p on, measured: it is written to no bytes at all.
pub(crate) fn measure_unit(file: &[u8], work: &[u32], n: usize, max: u64, p: usize) -> Extent
    requires has_room { HasRoom file.now work.now n × (p ≤ n) }
    requires accepted { Accepted file.now }
    ensures within { result.end ≤ n }
    ensures unit { (limit g : ℕ) → HoldsPlan file.now n limit work.now
        → g ≤ length (groups limit (blocks_of file.now))
        → p ≡ start_of (groups limit (blocks_of file.now)) g
        → FirstUnit file.now limit max g result }
{
    let mut nothing = [0u8; 0];
    put_unit(&mut nothing, file, work, n, max, p, false)
}
