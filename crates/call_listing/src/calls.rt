// The public call for the listing. It checks its file and its lent buffers itself.
ghost use Rattle.std.specs.Prelude.{◌≡◌, ℕ, [], ◌∷◌, length};
ghost use Rattle.std.proofs.Math.Option.{none};
ghost use Rattle.file_blocks.specs.Parse.{parse, blocks_of};
ghost use Rattle.base_text.specs.Doc.{print};
ghost use Rattle.call_frame.specs.Open.{IsOpen};
ghost use Rattle.call_frame.specs.Refusal.{answer_of};
ghost use Rattle.call_listing.specs.Listing.{listing};
ghost use Rattle.call_listing.specs.Steps.{HoldsGroups};
ghost use Rattle.call_listing.specs.Calls.{listing_call, listing_numbers};

use crate::lines::put_listing;
use call_frame::{Refusal, clear, open_file};
use plan_groups::group_blocks;
use plan_members::put_groups;

// The length of the listing: it is written to no bytes at all.
fn listing_length(file: &[u8], work: &[u32], n: usize) -> usize
    requires { IsOpen file.now none 4 (length work.now) n }
    ensures { (limit : ℕ) → HoldsGroups file.now n limit work.now
        → result ≡ length (print (listing limit (blocks_of file.now))) }
{
    let mut nothing = [0u8; 0];
    put_listing(file, work, n, &mut nothing)
}

// The listing of a file that is open, with n blocks: how many bytes its text has.
fn list_blocks(
    file: &[u8],
    limit: u64,
    work: &mut [u32],
    text: &mut [u8],
    n: u32,
) -> Result<u64, Refusal>
    requires { IsOpen file.now none 4 (length work.old) n }
    ensures answer { record {
      answer = answer_of result;
      work = work.new;
      results = text.new ∷ [];
    }
        ≡ listing_call limit (parse file.now) work.old text.old }
{
    let size = n as usize;
    group_blocks(file, work, n, limit);
    put_groups(work, size);
    let length = listing_length(file, work, size);
    if text.len() < length {
        clear(work, 4 * size);
        return Err(Refusal::ShortResult);
    }
    put_listing(file, work, size, text);
    clear(work, 4 * size);
    Ok(length as u64)
}

// The listing of a file, its blocks grouped by a limit: its text in the front of `text`, and how
// many bytes it has.
pub fn listing_of(
    file: &[u8],
    limit: u64,
    work: &mut [u32],
    text: &mut [u8],
) -> Result<u64, Refusal>
    ensures answer { record {
      answer = answer_of result;
      work = work.new;
      results = text.new ∷ [];
    }
        ≡ listing_call limit (parse file.now) work.old text.old }
{
    let open = open_file(file, None, 4, work.len())?;
    list_blocks(file, limit, work, text, open.blocks)
}

// The listing of a file, and the numbers of the answer, of which 0 or the number of the refusal is
// returned.
pub fn listing_numbers(
    file: &[u8],
    limit: u64,
    work: &mut [u32],
    text: &mut [u8],
    at: &mut u64,
    length: &mut u64,
) -> u32
    ensures answer { record {
      numbers = result ∷ at.new ∷ length.new ∷ [];
      work = work.new;
      results = text.new ∷ [];
    }
        ≡ listing_numbers
        (listing_call limit (parse file.now) work.old text.old) }
{
    match listing_of(file, limit, work, text) {
        Ok(n) => {
            *at = 0;
            *length = n;
            0
        }
        Err(refusal) => {
            *at = refusal.place();
            *length = 0;
            refusal.number()
        }
    }
}
