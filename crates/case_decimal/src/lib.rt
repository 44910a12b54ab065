// The section of the decimal printer: numbers, each with an index and how much to lend, and what
// the printer must answer and leave in what it was lent.
// An error of the input or of the output is handed on: the input may then have been read, and a
// line printed, in part.
#![tactic(auto)]

ghost use Rattle.std.specs.Prelude.{◌≡◌, ◌∷◌, [], ◌≤◌, IfOk};
ghost use Rattle.case_lent.specs.Left.{same_left};
ghost use Rattle.case_decimal.specs.DecimalCases.{prints_over, printer_leaves};

mod asked;

use asked::Asked;
use base_text::put_dec;
use case_io::broken::Broken;
use case_io::compare::same_told;
use case_io::input;
use case_io::section::Section;
use case_lent::{Lent, TEXT, at_most, same, whole};
use std::io;

// The index after the digits.
fn answer(number: u64, at: usize, text: &mut [u8]) -> [u64; 1]
    ensures { record { numbers = result; work = []; results = text.new ∷ [] }
        ≡ prints_over number at text.old }
{
    let after = put_dec(text, at, number);
    [after as u64]
}

// Whether the printer answers the expected index and leaves the expected text. The first of these
// that is not so is printed.
fn is_right<W: io::Write>(
    out: &mut W,
    k: u64,
    asked: Asked,
    expected: &[u64; 1],
    left: &Lent<TEXT>,
    text: &mut [u8; TEXT],
) -> io::Result<bool>
    ensures { IfOk result (λ same. same ≡ same_left expected.now [] left.now.text
        (printer_leaves asked text.old)) }
{
    let got = answer(asked.number, asked.at, &mut text[..asked.text]);
    Ok(
        same_told(out, Section::Decimal, k, expected, &got)?
            && same(out, Section::Decimal, k, &left.text, &text[..])?,
    )
}

// Reads vector `k` and tries it.
pub fn replay_one<R: io::Read, W: io::Write>(
    reader: &mut R,
    out: &mut W,
    k: u64,
) -> Result<bool, Broken> {
    let [number, number_high, at, at_high, text, after, after_high]: [u64; 7] = input::array(
        reader,
    )?;
    let asked = Asked {
        number: whole(number, number_high),
        at: whole(at, at_high) as usize,
        text: at_most(text, TEXT - 1)?,
    };
    let mut left: Lent<TEXT> = Lent::new(0);
    let mut lent = left.uncleared();
    input::bytes(reader, &mut left.text[..asked.text])?;
    let expected = [whole(after, after_high)];
    Ok(is_right(out, k, asked, &expected, &left, &mut lent.text)?)
}
