// The rows of the plan, taken from the work numbers.
ghost use Rattle.std.specs.Prelude.{◌≡◌, ◌++◌, ◌*◌, ◌≤◌, length, drop};
ghost use Rattle.plan_groups.specs.Groups.{rows_in};

// The rows of n blocks: the group numbers of quarter 2 and the blocks of quarter 0 in turn.
pub(crate) fn put_rows(work: &[u32], n: usize, plan: &mut [u32])
    requires n_in_bounds { 3 * n ≤ length work.now }
    requires n_in_bounds_2 { 2 * n ≤ length plan.old }
    ensures { plan.new ≡ rows_in n work.now ++ drop (2 * n) plan.old }
{
    for p in 0..n {
        plan[2 * p] = work[2 * n + p];
        plan[2 * p + 1] = work[p];
    }
}
