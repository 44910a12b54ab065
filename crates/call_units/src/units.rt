// The public call for the units from a given one on. It checks its file and its lent buffers
// itself.
ghost use Rattle.std.specs.Prelude.{◌≡◌, ◌∷◌, [], length};
ghost use Rattle.std.proofs.Math.Option.{none};
ghost use Rattle.base_hash.specs.Fnv.{hash_multiplier};
ghost use Rattle.file_blocks.specs.Parse.{parse};
ghost use Rattle.plan_members.specs.Prepared.{HoldsPlan};
ghost use Rattle.claim_units.specs.Claims.{UnitClaims};
ghost use Rattle.call_frame.specs.Open.{IsOpen};
ghost use Rattle.call_frame.specs.Refusal.{answer_of};
ghost use Rattle.call_units.specs.Calls.{units_call, units_numbers};
ghost use Rattle.call_units.specs.Steps.{AnswersUnits};

use call_frame::{Refusal, clear, open_file};
use emit_units::{find_start, put_units};
use plan_members::prepare;

// Which units are asked for: the limit by which the blocks are grouped, the wished size, and the
// number of the first.
#[derive(Clone, Copy)]
pub struct Asked {
    pub limit: u64,
    pub max: u64,
    pub first: u64,
}

// What is answered of some units.
#[derive(Clone, Copy)]
pub struct FrontValues {
    // How many units there are.
    pub count: u64,
    // How many bytes their texts have.
    pub length: u64,
    // How many blocks are done with the last of them.
    pub done: u64,
    // Whether that is the last of the file.
    pub last: bool,
}

// The units from a given one on of an accepted file with n blocks, by the plan in the work numbers.
fn answer_units(
    file: &[u8],
    asked: Asked,
    work: &[u32],
    text: &mut [u8],
    lengths: &mut [u64],
    n: usize,
) -> Result<FrontValues, Refusal>
    requires { HoldsPlan file.now n asked.limit work.now }
    ensures answer { AnswersUnits asked file.now result text.old lengths.old
        text.new lengths.new }
{
    let Some(p) = find_start(file, work, n, asked.max, asked.first) else {
        return Err(Refusal::NotFound);
    };
    let front = put_units(text, lengths, file, work, n, asked.max, p);
    if front.count == 0 {
        return Err(Refusal::ShortResult);
    }
    let count = front.count as u64;
    let length = front.length as u64;
    let done = front.end as u64;
    let last = front.last;
    Ok(FrontValues {
        count,
        length,
        done,
        last,
    })
}

// The units from a given one on of a file that is open, with n blocks.
fn emit_units(
    file: &[u8],
    asked: Asked,
    work: &mut [u32],
    text: &mut [u8],
    lengths: &mut [u64],
    n: u32,
) -> Result<FrontValues, Refusal>
    requires { IsOpen file.now none 4 (length work.old) n }
    ensures answer { record {
      answer = answer_of result;
      work = work.new;
      results = text.new ∷ lengths.new ∷ [];
    }
        ≡ units_call asked (parse file.now) work.old text.old
        lengths.old }
{
    let size = n as usize;
    prepare(file, work, n, asked.limit);
    let answer = answer_units(file, asked, work, text, lengths, size);
    clear(work, 4 * size);
    answer
}

// The units from a given one on of a file: as many whole ones as fit, one after another in the
// front of `text`, the length of each in the front of `lengths`. The claims on units hold of them
// all.
pub fn units_of(
    file: &[u8],
    asked: Asked,
    work: &mut [u32],
    text: &mut [u8],
    lengths: &mut [u64],
) -> Result<FrontValues, Refusal>
    ensures answer { record {
      answer = answer_of result;
      work = work.new;
      results = text.new ∷ lengths.new ∷ [];
    }
        ≡ units_call asked (parse file.now) work.old text.old
        lengths.old }
    ensures claims { UnitClaims hash_multiplier asked.limit asked.max file.now }
{
    let open = open_file(file, None, 4, work.len())?;
    emit_units(file, asked, work, text, lengths, open.blocks)
}

// The units from a given one on of a file, and the numbers of the answer, of which 0 or the number
// of the refusal is returned.
pub fn units_numbers(
    file: &[u8],
    asked: Asked,
    work: &mut [u32],
    text: &mut [u8],
    lengths: &mut [u64],
    at: &mut u64,
    count: &mut u64,
    length: &mut u64,
    done: &mut u64,
    last: &mut u64,
) -> u32
    ensures answer { record {
      numbers =
          result ∷ at.new ∷ count.new ∷ length.new ∷ done.new
          ∷ last.new ∷ [];
      work = work.new;
      results = text.new ∷ lengths.new ∷ [];
    }
        ≡ units_numbers
        (units_call asked (parse file.now) work.old text.old
        lengths.old) }
    ensures claims { UnitClaims hash_multiplier asked.limit asked.max file.now }
{
    match units_of(file, asked, work, text, lengths) {
        Ok(values) => {
            *at = 0;
            *count = values.count;
            *length = values.length;
            *done = values.done;
            *last = values.last as u64;
            0
        }
        Err(refusal) => {
            *at = refusal.place();
            *count = 0;
            *length = 0;
            *done = 0;
            *last = 0;
            refusal.number()
        }
    }
}
