// The C form of the call for the plan.
ghost use Rattle.std.specs.Prelude.{◌≡◌, ◌∷◌, []};
ghost use Rattle.file_blocks.specs.Parse.{parse};
ghost use Rattle.plan_groups.specs.Limit.{part_limit};
ghost use Rattle.call_plan.specs.Calls.{plan_call, plan_numbers};

use plan_groups::PART_LIMIT;

// The numbers of the plan. The answer is 0, or the number of the refusal.
#[unsafe(no_mangle)]
pub extern "C" fn recomp_plan(
    file: &[u8],
    work: &mut [u32],
    plan: &mut [u32],
    at: &mut u64,
    blocks: &mut u64,
) -> u32
    ensures answer { record {
      numbers = result ∷ at.new ∷ blocks.new ∷ [];
      work = work.new;
      results = plan.new ∷ [];
    }
        ≡ plan_numbers
        (plan_call part_limit (parse file.now) work.old plan.old) }
{
    call_plan::plan_numbers(file, PART_LIMIT, work, plan, at, blocks)
}
