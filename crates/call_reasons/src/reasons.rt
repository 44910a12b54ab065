// The public call for the sentences of a file from an instruction on. It checks its file and its
// text itself.
ghost use Rattle.std.specs.Prelude.{◌≡◌, ◌∷◌, []};
ghost use Rattle.std.proofs.Math.Option.{none};
ghost use Rattle.file_blocks.specs.Parse.{parse, blocks_of, instr_total};
ghost use Rattle.claim_reasons.specs.Claims.{ReasonClaims};
ghost use Rattle.call_frame.specs.Open.{IsOpen};
ghost use Rattle.call_frame.specs.Refusal.{answer_of};
ghost use Rattle.call_reasons.specs.Calls.{reasons_call, reasons_numbers};

use crate::find::find_instr;
use crate::lines::put_lines;
use call_frame::{Refusal, open_file};

// What is answered of the lines from an instruction on.
#[derive(Clone, Copy)]
pub struct ReasonsValues {
    // The first instruction whose line was not written, or how many there are where none is left.
    pub next: u64,
    // How many bytes the lines have.
    pub length: u64,
}

// The lines from instruction k on of a file that is open, with n blocks and `total` instructions.
fn make_reasons(
    file: &[u8],
    k: u64,
    text: &mut [u8],
    n: u32,
    total: u64,
) -> Result<ReasonsValues, Refusal>
    requires { IsOpen file.now none 0 0 n × (total ≡ instr_total (blocks_of file.now)) }
    ensures answer { record { answer = answer_of result; work = []; results = text.new ∷ [] }
        ≡ reasons_call k (parse file.now) text.old }
{
    let size = n as usize;
    let Some(place) = find_instr(file, size, k) else {
        return Err(Refusal::NotFound);
    };
    let first = place.first;
    let index = k - first as u64;
    let put = put_lines(text, file, size, place.block, first, index as u32);
    let next = put.next as u64;
    if put.length != 0 {
        let length = put.length as u64;
        return Ok(ReasonsValues { next, length });
    }
    if next != total {
        return Err(Refusal::ShortResult);
    }
    Ok(ReasonsValues { next, length: 0 })
}

// The sentences of a file from instruction k on, a newline after each: as many as fit, one after
// another in the front of `text`. What `ReasonClaims` says holds of all sentences of the file.
pub fn reasons_of(file: &[u8], k: u64, text: &mut [u8]) -> Result<ReasonsValues, Refusal>
    ensures answer { record { answer = answer_of result; work = []; results = text.new ∷ [] }
        ≡ reasons_call k (parse file.now) text.old }
    ensures claims { ReasonClaims file.now }
{
    let open = open_file(file, None, 0, 0)?;
    make_reasons(file, k, text, open.blocks, open.instructions as u64)
}

// The sentences of a file from instruction k on, and the numbers of the answer, of which 0 or the
// number of the refusal is returned.
pub fn reasons_numbers(
    file: &[u8],
    k: u64,
    text: &mut [u8],
    at: &mut u64,
    next: &mut u64,
    length: &mut u64,
) -> u32
    ensures answer { record {
      numbers = result ∷ at.new ∷ next.new ∷ length.new ∷ [];
      work = [];
      results = text.new ∷ [];
    }
        ≡ reasons_numbers (reasons_call k (parse file.now) text.old) }
    ensures claims { ReasonClaims file.now }
{
    match reasons_of(file, k, text) {
        Ok(lines) => {
            *at = 0;
            *next = lines.next;
            *length = lines.length;
            0
        }
        Err(refusal) => {
            *at = refusal.place();
            *next = 0;
            *length = 0;
            refusal.number()
        }
    }
}
