// Parents in lent numbers: element i is the parent of i, and a number that is its own parent is a
// root.
#![tactic(auto)]

ghost use Rattle.std.specs.Prelude.{◌*◌, ◌≤◌, ◌<◌, ◌^◌, ◌≡◌, length, set};
ghost use Rattle.base_forest.specs.Forest.{Forest, RootFound, Hung};
ghost use Rattle.base_lists.specs.Lists.{range};

// Makes every number its own root.
pub fn own_roots(p: &mut [u32])
    requires { length p.old ≤ 2 ^ 32 }
    ensures { p.new ≡ range (length p.old) 0 }
{
    for (i, parent) in p.iter_mut().enumerate() {
        *parent = i as u32;
    }
}

// The root of i. A number that the search comes to is hung under its parent's parent, where the
// search goes on, so that later searches are shorter.
pub fn find(p: &mut [u32], i: usize) -> usize
    requires forest { Forest (2 * length p.old) p.old }
    requires i_in_bounds { i < length p.old }
    ensures { RootFound p.old i result p.new }
{
    let mut at = i;
    loop {
        let up = p[at] as usize;
        if up == at {
            break at;
        }
        let next = p[up];
        p[at] = next;
        at = next as usize;
    }
}

// Makes `parent` the parent of r.
fn set_parent(p: &mut [u32], r: usize, parent: usize)
    requires r_in_bounds { (r < length p.old) × (parent < length p.old) }
    requires r_bound { (r < 2 ^ 32) × (parent < 2 ^ 32) }
    ensures { p.new ≡ set p.old r parent }
{
    p[r] = parent as u32;
}

// Hangs the root of i under the root of j. Where both have the same root, it stays its own parent.
pub fn hang_under(p: &mut [u32], i: usize, j: usize)
    requires forest { Forest (2 * length p.old) p.old }
    requires i_in_bounds { i < length p.old }
    requires j_in_bounds { j < length p.old }
    ensures { Hung p.old i j p.new }
{
    let source = find(&mut *p, i);
    let target = find(&mut *p, j);
    set_parent(p, source, target);
}
