// The section of the plan: block files, each with how many numbers to lend, and the numbers that
// the call for its plan must answer and leave in what it was lent.
// An error of the input or of the output is handed on: the input may then have been read, and a
// line printed, in part.
#![tactic(auto)]

ghost use Rattle.std.specs.Prelude.{◌≡◌, ◌∷◌, [], ◌+◌, ◌≤◌, length, IfOk};
ghost use Rattle.std.proofs.Math.Seq.{paste};
ghost use Rattle.file_blocks.specs.Parse.{parse};
ghost use Rattle.plan_groups.specs.Limit.{part_limit};
ghost use Rattle.call_plan.specs.Calls.{plan_call, plan_numbers};
ghost use Rattle.case_io.specs.Same.{same_numbers};
ghost use Rattle.case_plan.specs.PlanCases.{in_order};

use call_plan::plan_numbers;
use case_io::broken::Broken;
use case_io::compare::same_told;
use case_io::input;
use case_io::section::Section;
use case_lent::{LONGEST, at_most};
use plan_groups::PART_LIMIT;
use std::io;

// The most work numbers that a vector may have lent.
const MOST_WORK: usize = 512;

// The most numbers of a result that a vector may have lent.
const MOST_RESULT: usize = 256;

// The most numbers that a call leaves: those two, and the three of the answer.
const MOST: usize = 771;

// The refusal's number or 0, its i, and the blocks.
fn numbers(file: &[u8], work: &mut [u32], res: &mut [u32]) -> [u64; 3]
    ensures { record {
      numbers = result;
      work = work.new;
      results = res.new ∷ [];
    }
        ≡ plan_numbers
        (plan_call part_limit (parse file.now) work.old
        res.old) }
{
    let mut at: u64 = 0;
    let mut blocks: u64 = 0;
    let number = plan_numbers(file, PART_LIMIT, work, res, &mut at, &mut blocks);
    [u64::from(number), at, blocks]
}

// Puts lent numbers into a list from place `at` on.
fn put(list: &mut [u64], at: usize, lent: &[u32])
    requires { at + length lent.now ≤ length list.old }
    ensures { list.new
        ≡ paste list.old at lent.now (length lent.now) }
{
    for (i, n) in lent.iter().enumerate() {
        list[at + i] = u64::from(*n);
    }
}

// What the call leaves: the three numbers of its answer, every work number, every number of the
// result.
fn answer(got: &mut [u64], file: &[u8], work: &mut [u32], res: &mut [u32])
    requires { length got.old ≡ 3 + (length work.old + length res.old) }
    ensures { got.new
        ≡ in_order
        (plan_numbers
        (plan_call part_limit (parse file.now) work.old
        res.old)) }
{
    let [number, at, blocks] = numbers(file, work, res);
    got[0] = number;
    got[1] = at;
    got[2] = blocks;
    put(got, 3, work);
    put(got, 3 + work.len(), res);
}

// Whether the call answers and leaves all the expected numbers. Where it does not, both names are
// printed.
fn is_right<W: io::Write>(
    out: &mut W,
    k: u64,
    expected: &[u64],
    got: &mut [u64],
    file: &[u8],
    work: &mut [u32],
    res: &mut [u32],
) -> io::Result<bool>
    requires { length got.old ≡ 3 + (length work.old + length res.old) }
    ensures { IfOk result (λ same. same ≡ same_numbers expected.now
        (in_order
        (plan_numbers
        (plan_call part_limit (parse file.now) work.old
        res.old)))) }
{
    answer(got, file, work, res);
    same_told(out, Section::Plan, k, expected, got)
}

// Makes each number of a list one that no plan has, another one than those beside it.
fn fill(list: &mut [u64]) {
    for (i, n) in list.iter_mut().enumerate() {
        *n = 4294967295 - (i % 65536) as u64;
    }
}

// Lends the first numbers of a list, which has as many as are lent.
fn lend(lent: &mut [u32], list: &[u64])
    requires { length lent.old ≤ length list.now }
{
    for (to, n) in lent.iter_mut().zip(list) {
        *to = (*n % 4294967296) as u32;
    }
}

// Reads the expected plan of vector `k` into the front of the expected result, and tries the
// vector.
fn replay_plan<R: io::Read, W: io::Write>(
    reader: &mut R,
    out: &mut W,
    k: u64,
    expected: &mut [u64],
    file: &[u8],
    work: &mut [u32],
    res: &mut [u32],
) -> Result<bool, Broken>
    requires { (length expected.old ≡ 3 + (length work.old + length res.old))
        × (length expected.old ≤ 771) }
{
    let n = expected.len();
    let blocks = at_most(expected[2], res.len() / 2)?;
    let start = 3 + work.len();
    let end = start + 2 * blocks;
    input::numbers(reader, &mut expected[start..end])?;
    let mut got = [0u64; MOST];
    Ok(is_right(out, k, expected, &mut got[..n], file, work, res)?)
}

// Reads the answer and the file of vector `k`. Expected at first is what is lent; of the work
// numbers as many as the vector says become 0.
fn replay_file<R: io::Read, W: io::Write>(
    reader: &mut R,
    out: &mut W,
    k: u64,
    expected: &mut [u64],
    work: &mut [u32],
    res: &mut [u32],
    cleared: usize,
) -> Result<bool, Broken>
    requires { (length expected.old ≡ 3 + (length work.old + length res.old))
        × (length expected.old ≤ 771) × (cleared ≤ length work.old) }
{
    fill(expected);
    lend(work, &expected[3..]);
    lend(res, &expected[3 + work.len()..]);
    input::numbers(reader, &mut expected[..3])?;
    let end = 3 + cleared;
    expected[3..end].fill(0);
    let mut buffer = [0u8; LONGEST];
    let n = input::file(reader, &mut buffer)?;
    replay_plan(reader, out, k, expected, &buffer[..n], work, res)
}

// Reads vector `k` and tries it.
pub fn replay_one<R: io::Read, W: io::Write>(
    reader: &mut R,
    out: &mut W,
    k: u64,
) -> Result<bool, Broken> {
    let [work_length, result_length, cleared]: [u64; 3] = input::array(reader)?;
    let work_length = at_most(work_length, MOST_WORK)?;
    let result_length = at_most(result_length, MOST_RESULT)?;
    let cleared = at_most(cleared, work_length)?;
    let n = 3 + work_length + result_length;
    replay_file(
        reader,
        out,
        k,
        &mut [0u64; MOST][..n],
        &mut [0u32; MOST_WORK][..work_length],
        &mut [0u32; MOST_RESULT][..result_length],
        cleared,
    )
}
