// The public call for the plan. It checks its file and its lent buffers itself.
ghost use Rattle.std.specs.Prelude.{◌≡◌, ◌∷◌, [], length};
ghost use Rattle.std.proofs.Math.Option.{none};
ghost use Rattle.file_blocks.specs.Parse.{parse};
ghost use Rattle.call_frame.specs.Open.{IsOpen};
ghost use Rattle.call_frame.specs.Refusal.{answer_of};
ghost use Rattle.call_plan.specs.Calls.{plan_call, plan_numbers};

use crate::rows::put_rows;
use call_frame::{Refusal, clear, open_file};
use plan_groups::group_blocks;

// The plan of a file that is open, with n blocks: how many blocks it has.
fn plan_blocks(
    file: &[u8],
    limit: u64,
    work: &mut [u32],
    plan: &mut [u32],
    n: u32,
) -> Result<u64, Refusal>
    requires { IsOpen file.now none 4 (length work.old) n }
    ensures answer { record {
      answer = answer_of result;
      work = work.new;
      results = plan.new ∷ [];
    }
        ≡ plan_call limit (parse file.now) work.old plan.old }
{
    let size = n as usize;
    if plan.len() < 2 * size {
        clear(work, 4 * size);
        return Err(Refusal::ShortResult);
    }
    group_blocks(file, work, n, limit);
    put_rows(work, size, plan);
    clear(work, 4 * size);
    Ok(n as u64)
}

// The plan of a file at a group limit: two numbers for each block in emission order, its group and
// its index; and how many blocks the file has.
pub fn plan_of(file: &[u8], limit: u64, work: &mut [u32], plan: &mut [u32]) -> Result<u64, Refusal>
    ensures answer { record {
      answer = answer_of result;
      work = work.new;
      results = plan.new ∷ [];
    }
        ≡ plan_call limit (parse file.now) work.old plan.old }
{
    let open = open_file(file, None, 4, work.len())?;
    plan_blocks(file, limit, work, plan, open.blocks)
}

// The numbers of the plan of a file. The answer is 0, or the number of the refusal.
pub fn plan_numbers(
    file: &[u8],
    limit: u64,
    work: &mut [u32],
    plan: &mut [u32],
    at: &mut u64,
    blocks: &mut u64,
) -> u32
    ensures answer { record {
      numbers = result ∷ at.new ∷ blocks.new ∷ [];
      work = work.new;
      results = plan.new ∷ [];
    }
        ≡ plan_numbers
        (plan_call limit (parse file.now) work.old plan.old) }
{
    match plan_of(file, limit, work, plan) {
        Ok(count) => {
            *at = 0;
            *blocks = count;
            0
        }
        Err(refusal) => {
            *at = refusal.place();
            *blocks = 0;
            refusal.number()
        }
    }
}
