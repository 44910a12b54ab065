// The group of each block, by its number, from the rows of a plan in the work numbers.
ghost use Rattle.std.specs.Prelude.{◌*◌, ◌≤◌, ◌<◌, length};
ghost use Rattle.plan_members.specs.Answers.{OneRowMore};
ghost use Rattle.plan_members.specs.Numbers.{GroupsFrom};

// Quarter 1 of n numbers becomes 0.
fn no_groups(work: &mut [u32], n: usize)
    requires { (4 * n ≤ length work.old) × (n ≤ 65536) }
    ensures { GroupsFrom n n work.old work.new }
{
    for i in 0..n {
        work[n + i] = 0;
    }
}

// The group of the block in row p.
fn put_group(work: &mut [u32], n: usize, p: usize)
    requires { (4 * n ≤ length work.old) × (n ≤ 65536) × (p < n) }
    ensures { OneRowMore n p work.old work.new }
{
    let i = work[p] as usize;
    if i < n {
        work[n + i] = work[2 * n + p];
    }
}

// From the last row to the first, so that a block has the group of its first row.
pub fn put_groups(work: &mut [u32], n: usize)
    requires { (4 * n ≤ length work.old) × (n ≤ 65536) }
    ensures { GroupsFrom n 0 work.old work.new }
{
    no_groups(work, n);
    for p in (0..n).rev() {
        put_group(work, n, p);
    }
}
