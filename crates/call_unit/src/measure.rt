// The public call that measures a unit. It checks its file and its lent buffer itself.
ghost use Rattle.std.specs.Prelude.{◌≡◌, ◌∷◌, [], length};
ghost use Rattle.std.proofs.Math.Option.{none};
ghost use Rattle.file_blocks.specs.Parse.{parse};
ghost use Rattle.plan_members.specs.Prepared.{HoldsPlan};
ghost use Rattle.call_frame.specs.Open.{IsOpen};
ghost use Rattle.call_frame.specs.Refusal.{answer_of};
ghost use Rattle.call_unit.specs.Calls.{measure_call, measure_numbers};
ghost use Rattle.call_unit.specs.Claims.{MeasureThenWrite};
ghost use Rattle.call_unit.specs.Steps.{AnswersMeasure};

use call_answers::{Told, measure_numbers_of, told_of};
use call_frame::{Refusal, clear, open_file};
use emit_units::find_unit;
use plan_members::prepare;

// What is told of unit k of an accepted file with n blocks, by the plan at a limit in the work
// numbers.
fn answer_measure(
    file: &[u8],
    limit: u64,
    max: u64,
    k: u64,
    work: &[u32],
    n: usize,
) -> Result<Told, Refusal>
    requires { HoldsPlan file.now n limit work.now }
    ensures answer { AnswersMeasure limit max k file.now result }
{
    let Some(e) = find_unit(file, work, n, max, k) else {
        return Err(Refusal::NotFound);
    };
    Ok(told_of(k, e.length, e.end, e.last))
}

// Measures unit k of a file that is open, with n blocks.
fn measure_open(
    file: &[u8],
    limit: u64,
    max: u64,
    k: u64,
    work: &mut [u32],
    n: u32,
) -> Result<Told, Refusal>
    requires { IsOpen file.now none 4 (length work.old) n }
    ensures answer { record { answer = answer_of result; work = work.new; results = [] }
        ≡ measure_call limit max k (parse file.now) work.old }
{
    let size = n as usize;
    prepare(file, work, n, limit);
    let answer = answer_measure(file, limit, max, k, work, size);
    clear(work, 4 * size);
    answer
}

// What is told of unit k of a file, whose blocks are grouped by a limit and whose units are handed
// on once they have max bytes. With what is told of a unit it is written, where enough is lent, and
// with nothing else.
pub fn measure_of(
    file: &[u8],
    limit: u64,
    max: u64,
    k: u64,
    work: &mut [u32],
) -> Result<Told, Refusal>
    ensures answer { record { answer = answer_of result; work = work.new; results = [] }
        ≡ measure_call limit max k (parse file.now) work.old }
    ensures measured { MeasureThenWrite limit max file.now }
{
    let open = open_file(file, None, 4, work.len())?;
    measure_open(file, limit, max, k, work, open.blocks)
}

// What is told of unit k of a file, and the numbers of the answer, of which 0 or the number of the
// refusal is returned.
pub fn measure_numbers(
    file: &[u8],
    limit: u64,
    max: u64,
    k: u64,
    work: &mut [u32],
    at: &mut u64,
    unit: &mut u64,
    length: &mut u64,
    done: &mut u64,
    last: &mut u64,
) -> u32
    ensures answer { record {
      numbers =
          result ∷ at.new ∷ unit.new ∷ length.new ∷ done.new
          ∷ last.new ∷ [];
      work = work.new;
      results = [];
    }
        ≡ measure_numbers
        (measure_call limit max k (parse file.now) work.old) }
    ensures measured { MeasureThenWrite limit max file.now }
{
    let answer = measure_of(file, limit, max, k, work);
    measure_numbers_of(answer, at, unit, length, done, last)
}
