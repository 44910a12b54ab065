// Lists of members in the work numbers. Of four quarters of n numbers each, quarter 0 has all
// blocks in the order of their keys and quarter 2 the roots; quarter 1 gets each block's next
// member, quarter 3 each component's first.
ghost use Rattle.std.specs.Prelude.{◌≡◌, ◌+◌, ◌*◌, ◌≤◌, ◌<◌, length, get_or, take};
ghost use Rattle.plan_groups.specs.Links.{Filled, link_one, RootsInside, AllLinked};
ghost use Rattle.plan_groups.specs.Links.{AllOnce, Outside};

// Quarter 3 with n in each place: no component has a member yet.
fn no_members(work: &mut [u32], n: u32)
    requires { 4 * n ≤ length work.old }
    ensures { Filled n n work.old work.new }
{
    let start = 3 * n as usize;
    for r in 0..n as usize {
        work[start + r] = n;
    }
}

// Puts block i in front of its component.
fn link_one(work: &mut [u32], n: u32, i: u32)
    requires { (4 * n ≤ length work.old) × (i < n) × (get_or work.old (2 * n + i) 0 < n) }
    ensures { work.new ≡ link_one n i work.old }
{
    let size = n as usize;
    let at = i as usize;
    let r = as_index(work[2 * size + at]);
    work[size + at] = work[3 * size + r];
    work[3 * size + r] = i;
}

// A number as an index; nothing is lost.
pub(crate) fn as_index(x: u32) -> usize
    ensures { result ≡ x }
{
    x as usize
}

// Links the members of each component, from the last block in the order of keys to the first.
pub(crate) fn link_members(work: &mut [u32], n: u32)
    requires n_in_bounds { 4 * n ≤ length work.old }
    requires all_once { AllOnce n (take n work.old) × RootsInside n work.old }
    ensures kept { Outside n work.old work.new }
    ensures links { AllLinked n work.old work.new }
{
    no_members(work, n);
    for left in (0..n as usize).rev() {
        let i = work[left];
        link_one(work, n, i);
    }
}
