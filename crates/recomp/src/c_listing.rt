// The C form of the call for the listing.
ghost use Rattle.std.specs.Prelude.{◌≡◌, ◌∷◌, []};
ghost use Rattle.file_blocks.specs.Parse.{parse};
ghost use Rattle.plan_groups.specs.Limit.{part_limit};
ghost use Rattle.call_listing.specs.Calls.{listing_call, listing_numbers};

use plan_groups::PART_LIMIT;

// The bytes of the listing. The answer is 0, or the number of the refusal.
#[unsafe(no_mangle)]
pub extern "C" fn recomp_listing(
    file: &[u8],
    work: &mut [u32],
    text: &mut [u8],
    at: &mut u64,
    length: &mut u64,
) -> u32
    ensures answer { record {
      numbers = result ∷ at.new ∷ length.new ∷ [];
      work = work.new;
      results = text.new ∷ [];
    }
        ≡ listing_numbers
        (listing_call part_limit (parse file.now) work.old
        text.old) }
{
    call_listing::listing_numbers(file, PART_LIMIT, work, text, at, length)
}
