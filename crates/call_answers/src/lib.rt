// The answers of the calls for a unit, apart from how the unit is measured and written: by what is
// found of it, and as the numbers that are handed over.
#![tactic(auto)]

ghost use Rattle.std.specs.Prelude.{◌≡◌, ◌∷◌, []};
ghost use Rattle.call_answers.specs.Values.{told_of, same_values};
ghost use Rattle.call_answers.specs.Answers.{answer_in, measure_numbers_of, write_numbers_of};

use call_frame::Refusal;

// What measuring tells of a unit, and writing it takes back.
#[derive(Clone, Copy)]
pub struct Told {
    // The unit's number.
    pub unit: u64,
    // How many bytes its text has.
    pub length: u64,
    // How many blocks are done up to its end, from the first unit on.
    pub done: u64,
    // 1 for the last unit, else 0.
    pub last: u64,
}

// What is told of a unit whose text has `length` bytes.
pub fn told_of(unit: u64, length: usize, done: usize, last: bool) -> Told
    ensures { result ≡ told_of unit length done last }
{
    Told {
        unit,
        length: length as u64,
        done: done as u64,
        last: last as u64,
    }
}

// Whether what is given for a unit has the values that are found: its length, the blocks done and
// the last mark.
pub fn same_values(given: Told, found: Told) -> bool
    ensures { result ≡ same_values given found }
{
    if given.length != found.length {
        return false;
    }
    if given.done != found.done {
        return false;
    }
    given.last == found.last
}

// Whether a unit is to be written by what is given for it, where there is room for
// so many bytes, or what refuses it.
#[tactic(auto, using(crate::proofs::Answers::differs_first))]
pub fn answer_in(given: Told, found: Told, room: usize) -> Result<(), Refusal>
    ensures { result ≡ answer_in given found room }
{
    let same = same_values(given, found);
    let fits = found.length <= room as u64;
    if !same {
        return Err(Refusal::Differs);
    }
    if !fits {
        return Err(Refusal::ShortResult);
    }
    Ok(())
}

// The numbers of an answer of the call that measures, of which 0 or the number of the refusal is
// returned.
pub fn measure_numbers_of(
    answer: Result<Told, Refusal>,
    at: &mut u64,
    unit: &mut u64,
    length: &mut u64,
    done: &mut u64,
    last: &mut u64,
) -> u32
    ensures { result ∷ at.new ∷ unit.new ∷ length.new ∷ done.new
        ∷ last.new ∷ []
        ≡ measure_numbers_of answer }
{
    match answer {
        Ok(told) => {
            *at = 0;
            *unit = told.unit;
            *length = told.length;
            *done = told.done;
            *last = told.last;
            0
        }
        Err(refusal) => {
            *at = refusal.place();
            *unit = 0;
            *length = 0;
            *done = 0;
            *last = 0;
            refusal.number()
        }
    }
}

// The numbers of an answer of the call that writes, likewise.
pub fn write_numbers_of(answer: Result<(), Refusal>, at: &mut u64) -> u32
    ensures { result ∷ at.new ∷ [] ≡ write_numbers_of answer }
{
    match answer {
        Ok(()) => {
            *at = 0;
            0
        }
        Err(refused) => {
            *at = refused.place();
            refused.number()
        }
    }
}
