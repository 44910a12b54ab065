// The C forms of the calls for the units from a given one on, and for their lengths.
ghost use Rattle.std.specs.Prelude.{◌≡◌, ◌∷◌, []};
ghost use Rattle.base_hash.specs.Fnv.{hash_multiplier};
ghost use Rattle.file_blocks.specs.Parse.{parse};
ghost use Rattle.plan_groups.specs.Limit.{part_limit};
ghost use Rattle.claim_units.specs.Claims.{UnitClaims};
ghost use Rattle.call_units.specs.Calls.{units_call, units_numbers, lengths_call, lengths_numbers};

use call_units::Asked;
use plan_groups::PART_LIMIT;

// The texts of the units from `first` on, as many whole ones as fit, one after another, and the
// length of each; how many they are, their bytes in all, the blocks done with the last of them, and
// 1 if it is the last of the file. The answer is 0, or the number of the refusal. Every way through
// the units of that file at that size keeps demand 3, and the text of its blocks, read by C99, does
// what the manual says of their native records, but for what docs/DIFFERENCES.md excepts.
#[unsafe(no_mangle)]
pub extern "C" fn recomp_units(
    file: &[u8],
    max_bytes: u64,
    first: u64,
    work: &mut [u32],
    text: &mut [u8],
    lengths: &mut [u64],
    at: &mut u64,
    count: &mut u64,
    length: &mut u64,
    done: &mut u64,
    last: &mut u64,
) -> u32
    ensures answer { record {
      numbers =
          result ∷ at.new ∷ count.new ∷ length.new ∷ done.new
          ∷ last.new ∷ [];
      work = work.new;
      results = text.new ∷ lengths.new ∷ [];
    }
        ≡ units_numbers
        (units_call (record { limit = part_limit; max = max_bytes; first = first })
        (parse file.now) work.old text.old
        lengths.old) }
    ensures claims { UnitClaims hash_multiplier part_limit max_bytes file.now }
{
    let asked = Asked {
        limit: PART_LIMIT,
        max: max_bytes,
        first,
    };
    call_units::units_numbers(
        file, asked, work, text, lengths, at, count, length, done, last,
    )
}

// The lengths of the units from `first` on, as many as have a place; how many they are, the blocks
// done with the last of those units, and 1 if it is the last of the file. The answer is 0, or the
// number of the refusal.
#[unsafe(no_mangle)]
pub extern "C" fn recomp_lengths(
    file: &[u8],
    max_bytes: u64,
    first: u64,
    work: &mut [u32],
    lengths: &mut [u64],
    at: &mut u64,
    count: &mut u64,
    done: &mut u64,
    last: &mut u64,
) -> u32
    ensures answer { record {
      numbers =
          result ∷ at.new ∷ count.new ∷ done.new ∷ last.new ∷ [];
      work = work.new;
      results = lengths.new ∷ [];
    }
        ≡ lengths_numbers
        (lengths_call (record { limit = part_limit; max = max_bytes; first = first })
        (parse file.now) work.old lengths.old) }
{
    let asked = Asked {
        limit: PART_LIMIT,
        max: max_bytes,
        first,
    };
    call_units::lengths_numbers(file, asked, work, lengths, at, count, done, last)
}
