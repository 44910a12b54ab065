// The public call for the lengths of the units from a given one on. It checks its file and its lent
// buffers itself.
ghost use Rattle.std.specs.Prelude.{◌≡◌, ◌∷◌, [], length};
ghost use Rattle.std.proofs.Math.Option.{none};
ghost use Rattle.file_blocks.specs.Parse.{parse};
ghost use Rattle.plan_members.specs.Prepared.{HoldsPlan};
ghost use Rattle.call_frame.specs.Open.{IsOpen};
ghost use Rattle.call_frame.specs.Refusal.{answer_of};
ghost use Rattle.call_units.specs.Calls.{lengths_call, lengths_numbers};
ghost use Rattle.call_units.specs.Steps.{AnswersLengths};

use crate::units::Asked;
use call_frame::{Refusal, clear, open_file};
use emit_units::{find_start, put_lengths};
use plan_members::prepare;

// What is answered of the lengths of some units.
#[derive(Clone, Copy)]
pub struct LengthsValues {
    // How many lengths there are.
    pub count: u64,
    // How many blocks are done with the last of their units.
    pub done: u64,
    // Whether that is the last of the file.
    pub last: bool,
}

// The lengths of the units from a given one on of an accepted file with n blocks, by the plan in
// the work numbers.
fn answer_lengths(
    file: &[u8],
    asked: Asked,
    work: &[u32],
    lengths: &mut [u64],
    n: usize,
) -> Result<LengthsValues, Refusal>
    requires { HoldsPlan file.now n asked.limit work.now }
    ensures answer { AnswersLengths asked file.now result lengths.old lengths.new }
{
    let Some(p) = find_start(file, work, n, asked.max, asked.first) else {
        return Err(Refusal::NotFound);
    };
    let front = put_lengths(lengths, file, work, n, asked.max, p);
    if front.count == 0 {
        return Err(Refusal::ShortResult);
    }
    let count = front.count as u64;
    let done = front.end as u64;
    let last = front.last;
    Ok(LengthsValues { count, done, last })
}

// The lengths of the units from a given one on of a file that is open, with n blocks.
fn measure_units(
    file: &[u8],
    asked: Asked,
    work: &mut [u32],
    lengths: &mut [u64],
    n: u32,
) -> Result<LengthsValues, Refusal>
    requires { IsOpen file.now none 4 (length work.old) n }
    ensures answer { record {
      answer = answer_of result;
      work = work.new;
      results = lengths.new ∷ [];
    }
        ≡ lengths_call asked (parse file.now) work.old lengths.old }
{
    let size = n as usize;
    prepare(file, work, n, asked.limit);
    let answer = answer_lengths(file, asked, work, lengths, size);
    clear(work, 4 * size);
    answer
}

// The lengths of the units from a given one on of a file, as many as have a place, in the front of
// `lengths`.
pub fn lengths_of(
    file: &[u8],
    asked: Asked,
    work: &mut [u32],
    lengths: &mut [u64],
) -> Result<LengthsValues, Refusal>
    ensures answer { record {
      answer = answer_of result;
      work = work.new;
      results = lengths.new ∷ [];
    }
        ≡ lengths_call asked (parse file.now) work.old lengths.old }
{
    let open = open_file(file, None, 4, work.len())?;
    measure_units(file, asked, work, lengths, open.blocks)
}

// The lengths of the units from a given one on of a file, and the numbers of the answer, of which 0
// or the number of the refusal is returned.
pub fn lengths_numbers(
    file: &[u8],
    asked: Asked,
    work: &mut [u32],
    lengths: &mut [u64],
    at: &mut u64,
    count: &mut u64,
    done: &mut u64,
    last: &mut u64,
) -> u32
    ensures answer { record {
      numbers =
          result ∷ at.new ∷ count.new ∷ done.new ∷ last.new ∷ [];
      work = work.new;
      results = lengths.new ∷ [];
    }
        ≡ lengths_numbers
        (lengths_call asked (parse file.now) work.old lengths.old) }
{
    match lengths_of(file, asked, work, lengths) {
        Ok(values) => {
            *at = 0;
            *count = values.count;
            *done = values.done;
            *last = values.last as u64;
            0
        }
        Err(refusal) => {
            *at = refusal.place();
            *count = 0;
            *done = 0;
            *last = 0;
            refusal.number()
        }
    }
}
