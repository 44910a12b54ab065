// The C forms of the calls for a unit: one measures it, one writes it by what was measured.
ghost use Rattle.std.specs.Prelude.{◌≡◌, ◌∷◌, []};
ghost use Rattle.base_hash.specs.Fnv.{hash_multiplier};
ghost use Rattle.file_blocks.specs.Parse.{parse};
ghost use Rattle.plan_groups.specs.Limit.{part_limit};
ghost use Rattle.claim_units.specs.Claims.{UnitClaims};
ghost use Rattle.call_unit.specs.Calls.{measure_call, measure_numbers, write_call, write_numbers};
ghost use Rattle.call_unit.specs.Claims.{MeasureThenWrite};

use call_answers::Told;
use plan_groups::PART_LIMIT;

// The number of a unit, the length of its text, the blocks done up to its end, and 1 if it is the
// last, else 0. The answer is 0, or the number of the refusal. With what is told of a unit of that file at
// that size recomp_write writes it, where enough is lent, and with nothing else.
#[unsafe(no_mangle)]
pub extern "C" fn recomp_measure(
    file: &[u8],
    max_bytes: u64,
    unit: u64,
    work: &mut [u32],
    at: &mut u64,
    number: &mut u64,
    length: &mut u64,
    done: &mut u64,
    last: &mut u64,
) -> u32
    ensures answer { record {
      numbers =
          result ∷ at.new ∷ number.new ∷ length.new ∷ done.new
          ∷ last.new ∷ [];
      work = work.new;
      results = [];
    }
        ≡ measure_numbers
        (measure_call part_limit max_bytes unit (parse file.now) work.old) }
    ensures measured { MeasureThenWrite part_limit max_bytes file.now }
{
    call_unit::measure_numbers(
        file, PART_LIMIT, max_bytes, unit, work, at, number, length, done, last,
    )
}

// The text of the unit of which this was told. The answer is 0, or the number of the refusal; the
// same holds as above. Every way through the units of that file at that size keeps demand 3, and
// the text of its blocks, read by C99, does what the manual says of their native records, but for
// what docs/DIFFERENCES.md excepts.
#[unsafe(no_mangle)]
pub extern "C" fn recomp_write(
    file: &[u8],
    max_bytes: u64,
    unit: u64,
    length: u64,
    done: u64,
    last: u64,
    work: &mut [u32],
    text: &mut [u8],
    at: &mut u64,
) -> u32
    ensures answer { record {
      numbers = result ∷ at.new ∷ [];
      work = work.new;
      results = text.new ∷ [];
    }
        ≡ write_numbers
        (write_call part_limit max_bytes
        (record { unit = unit; length = length; done = done; last = last })
        (parse file.now) work.old text.old) }
    ensures measured { MeasureThenWrite part_limit max_bytes file.now }
    ensures claims { UnitClaims hash_multiplier part_limit max_bytes file.now }
{
    let given = Told {
        unit,
        length,
        done,
        last,
    };
    call_unit::write_numbers(file, PART_LIMIT, max_bytes, given, work, text, at)
}
