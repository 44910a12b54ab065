// The sections of the sentence of one instruction and of those from one on: block files, each with
// the instruction asked for and how much to lend, and what the call must answer and leave in what
// it was lent.
// An error of the input or of the output is handed on: the input may then have been read, and a
// line printed, in part.
#![tactic(auto)]

ghost use Rattle.std.specs.Prelude.{◌≡◌, ◌∷◌, [], ◌≤◌, IfOk};
ghost use Rattle.file_blocks.specs.Parse.{parse};
ghost use Rattle.case_lent.specs.Left.{same_left};
ghost use Rattle.case_reasons.specs.ReasonCases.{hands_over, reason_call_leaves};

mod asked;

use asked::Asked;
pub use asked::Sentences;
use call_reasons::{reason_numbers, reasons_numbers};
use case_io::broken::Broken;
use case_io::compare::same_told;
use case_io::input;
use case_io::section::Section;
use case_lent::{LONGEST, Lent, TEXT, at_most, same, whole};
use std::io;

// The section of a call.
fn section_of(sentences: Sentences) -> Section {
    match sentences {
        Sentences::One => Section::Reason,
        Sentences::From => Section::Reasons,
    }
}

// The refusal's number or 0, its i, the next instruction, and the bytes in all. The call for one
// sentence does not say the next instruction: it has 0 there.
fn answer(file: &[u8], sentences: Sentences, k: u64, text: &mut [u8]) -> [u64; 4]
    ensures { record { numbers = result; work = []; results = text.new ∷ [] }
        ≡ hands_over sentences k (parse file.now) text.old }
{
    let mut at: u64 = 0;
    let mut next: u64 = 0;
    let mut length: u64 = 0;
    match sentences {
        Sentences::One => {
            let number = reason_numbers(file, k, text, &mut at, &mut length);
            [u64::from(number), at, 0, length]
        }
        Sentences::From => {
            let number = reasons_numbers(file, k, text, &mut at, &mut next, &mut length);
            [u64::from(number), at, next, length]
        }
    }
}

// Whether the call answers all the expected numbers and leaves what is expected. The first of these
// that is not so is printed.
fn is_right<W: io::Write>(
    out: &mut W,
    k: u64,
    asked: Asked,
    file: &[u8],
    expected: &[u64; 4],
    left: &Lent<TEXT>,
    text: &mut [u8; TEXT],
) -> io::Result<bool>
    ensures { IfOk result (λ same. same ≡ same_left expected.now [] left.now.text
        (reason_call_leaves asked file.now text.old)) }
{
    let section = section_of(asked.sentences);
    let got = answer(
        file,
        asked.sentences,
        asked.instruction,
        &mut text[..asked.text],
    );
    Ok(same_told(out, section, k, expected, &got)? && same(out, section, k, &left.text, &text[..])?)
}

// Reads vector `k` of one of the two calls and tries it.
pub fn replay_one<R: io::Read, W: io::Write>(
    reader: &mut R,
    out: &mut W,
    k: u64,
    sentences: Sentences,
) -> Result<bool, Broken> {
    let [instruction, instruction_high, text]: [u64; 3] = input::array(reader)?;
    let asked = Asked {
        sentences,
        instruction: whole(instruction, instruction_high),
        text: at_most(text, TEXT - 1)?,
    };
    let expected: [u64; 4] = input::array(reader)?;
    let mut buffer = [0u8; LONGEST];
    let n = input::file(reader, &mut buffer)?;
    let length = at_most(expected[3], TEXT)?;
    let mut left: Lent<TEXT> = Lent::new(0);
    let mut lent = left.uncleared();
    input::bytes(reader, &mut left.text[..length])?;
    Ok(is_right(
        out,
        k,
        asked,
        &buffer[..n],
        &expected,
        &left,
        &mut lent.text,
    )?)
}
