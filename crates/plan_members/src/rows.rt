// The rows of a plan, and the first instruction of a block, read from the work numbers.
ghost use Rattle.std.specs.Prelude.{◌≡◌, ◌+◌, ◌*◌, ◌≤◌, ◌<◌, length, get_or};
ghost use Rattle.plan_members.specs.Answers.{IsRowBlock, IsRowGroup, IsFirstInstr};
ghost use Rattle.plan_members.specs.Answers.{IsGroupEnd};

// The block in row p.
pub fn row_block(work: &[u32], p: usize) -> usize
    requires { p < length work.now }
    ensures number { result ≡ get_or work.now p 0 }
    ensures planned { IsRowBlock work.now p result }
{
    work[p] as usize
}

// The group of row p, where there are n blocks.
pub fn row_group(work: &[u32], n: usize, p: usize) -> u32
    requires { (4 * n ≤ length work.now) × (n ≤ 65536) × (p < n) }
    ensures number { result ≡ get_or work.now (2 * n + p) 0 }
    ensures planned { IsRowGroup work.now n p result }
{
    work[2 * n + p]
}

// The number of the first instruction of block i, where there are n blocks.
pub fn first_of(work: &[u32], n: usize, i: usize) -> usize
    requires { (4 * n ≤ length work.now) × (n ≤ 65536) × (i < n) }
    ensures { IsFirstInstr work.now n i result }
{
    work[3 * n + i] as usize
}

// The row after the last one of the group of row p, where there are n blocks. From a group's first
// row on it is the first row of the next.
pub fn group_end(work: &[u32], n: usize, p: usize) -> usize
    requires { (4 * n ≤ length work.now) × (n ≤ 65536) × (p < n) }
    ensures inside { (p < result) × (result ≤ n) }
    ensures planned { IsGroupEnd work.now n p result }
{
    let group = work[2 * n + p];
    for end in p + 1..n {
        if work[2 * n + end] != group {
            return end;
        }
    }
    n
}
