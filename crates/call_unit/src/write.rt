// The public call that writes a unit by what measuring told of it. It checks its file, what is
// given and its lent buffers itself.
ghost use Rattle.std.specs.Prelude.{◌≡◌, ◌∷◌, [], length};
ghost use Rattle.std.proofs.Math.Option.{none};
ghost use Rattle.base_hash.specs.Fnv.{hash_multiplier};
ghost use Rattle.file_blocks.specs.Parse.{parse};
ghost use Rattle.plan_members.specs.Prepared.{HoldsPlan};
ghost use Rattle.claim_units.specs.Claims.{UnitClaims};
ghost use Rattle.call_frame.specs.Open.{IsOpen};
ghost use Rattle.call_frame.specs.Refusal.{answer_of};
ghost use Rattle.call_unit.specs.Calls.{write_call, write_numbers};
ghost use Rattle.call_unit.specs.Claims.{MeasureThenWrite};
ghost use Rattle.call_unit.specs.Steps.{AnswersWrite};

use call_answers::{Told, answer_in, told_of, write_numbers_of};
use call_frame::{Refusal, clear, open_file};
use emit_units::{find_unit, write_unit};
use plan_members::prepare;

// Writes the unit that is given, of an accepted file with n blocks, by the plan at a limit in the
// work numbers. It is measured first: where a value differs or the text is too short, no byte of the
// text may change.
fn answer_write(
    file: &[u8],
    limit: u64,
    max: u64,
    given: Told,
    work: &[u32],
    text: &mut [u8],
    n: usize,
) -> Result<(), Refusal>
    requires { HoldsPlan file.now n limit work.now }
    ensures answer { AnswersWrite limit max given file.now result text.old text.new }
{
    let Some(e) = find_unit(file, work, n, max, given.unit) else {
        return Err(Refusal::NotFound);
    };
    let found = told_of(given.unit, e.length, e.end, e.last);
    answer_in(given, found, text.len())?;
    write_unit(text, file, work, n, max, e);
    Ok(())
}

// Writes the unit that is given, of a file that is open, with n blocks.
fn write_open(
    file: &[u8],
    limit: u64,
    max: u64,
    given: Told,
    work: &mut [u32],
    text: &mut [u8],
    n: u32,
) -> Result<(), Refusal>
    requires { IsOpen file.now none 4 (length work.old) n }
    ensures answer { record {
      answer = answer_of result;
      work = work.new;
      results = text.new ∷ [];
    }
        ≡ write_call limit max given (parse file.now) work.old
        text.old }
{
    let size = n as usize;
    prepare(file, work, n, limit);
    let answer = answer_write(file, limit, max, given, work, text, size);
    clear(work, 4 * size);
    answer
}

// Writes the unit that is given, of a file whose blocks are grouped by a limit and whose units are
// handed on once they have max bytes: its text in the front of `text`. With what measuring tells of
// a unit it is written, where enough is lent, and with nothing else; the claims on units hold of
// them all.
pub fn write_of(
    file: &[u8],
    limit: u64,
    max: u64,
    given: Told,
    work: &mut [u32],
    text: &mut [u8],
) -> Result<(), Refusal>
    ensures answer { record {
      answer = answer_of result;
      work = work.new;
      results = text.new ∷ [];
    }
        ≡ write_call limit max given (parse file.now) work.old
        text.old }
    ensures measured { MeasureThenWrite limit max file.now }
    ensures claims { UnitClaims hash_multiplier limit max file.now }
{
    let open = open_file(file, None, 4, work.len())?;
    write_open(file, limit, max, given, work, text, open.blocks)
}

// Writes the unit that is given, of a file, and the numbers of the answer, of which 0 or the number
// of the refusal is returned.
pub fn write_numbers(
    file: &[u8],
    limit: u64,
    max: u64,
    given: Told,
    work: &mut [u32],
    text: &mut [u8],
    at: &mut u64,
) -> u32
    ensures answer { record {
      numbers = result ∷ at.new ∷ [];
      work = work.new;
      results = text.new ∷ [];
    }
        ≡ write_numbers
        (write_call limit max given (parse file.now) work.old
        text.old) }
    ensures measured { MeasureThenWrite limit max file.now }
    ensures claims { UnitClaims hash_multiplier limit max file.now }
{
    let answer = write_of(file, limit, max, given, work, text);
    write_numbers_of(answer, at)
}
