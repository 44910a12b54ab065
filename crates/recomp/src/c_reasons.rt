// The C forms of the calls for the sentence of one instruction, and for those from one on.
ghost use Rattle.std.specs.Prelude.{◌≡◌, ◌∷◌, []};
ghost use Rattle.file_blocks.specs.Parse.{parse};
ghost use Rattle.claim_reasons.specs.Claims.{ReasonClaims};
ghost use Rattle.call_reasons.specs.Calls.{reason_call, reason_numbers, reasons_call, reasons_numbers};

// The sentence of instruction `instruction`, or no bytes where it has none. The answer is 0, or the
// number of the refusal. An instruction of that file has a sentence exactly if its block's text
// prints its shell, the reason is the first that holds, and a reader gets address, kind and reason
// back.
#[unsafe(no_mangle)]
pub extern "C" fn recomp_reason(
    file: &[u8],
    instruction: u64,
    text: &mut [u8],
    at: &mut u64,
    length: &mut u64,
) -> u32
    ensures answer { record {
      numbers = result ∷ at.new ∷ length.new ∷ [];
      work = [];
      results = text.new ∷ [];
    }
        ≡ reason_numbers (reason_call instruction (parse file.now) text.old) }
    ensures claims { ReasonClaims file.now }
{
    call_reasons::reason_numbers(file, instruction, text, at, length)
}

// The sentences from instruction `first` on, a newline after each: as many as fit, one after
// another; the first instruction whose line did not fit, and the bytes of the lines. The answer is
// 0, or the number of the refusal. The same holds of every sentence of that file as above.
#[unsafe(no_mangle)]
pub extern "C" fn recomp_reasons(
    file: &[u8],
    first: u64,
    text: &mut [u8],
    at: &mut u64,
    next: &mut u64,
    length: &mut u64,
) -> u32
    ensures answer { record {
      numbers = result ∷ at.new ∷ next.new ∷ length.new ∷ [];
      work = [];
      results = text.new ∷ [];
    }
        ≡ reasons_numbers (reasons_call first (parse file.now) text.old) }
    ensures claims { ReasonClaims file.now }
{
    call_reasons::reasons_numbers(file, first, text, at, next, length)
}
