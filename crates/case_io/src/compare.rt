// The comparison of an answer with the expected one.
// An error of the output is handed on: a part of the line may then have been printed.
ghost use Rattle.std.specs.Prelude.{◌≡◌, IfOk};
ghost use Rattle.case_io.specs.Lines.{mismatch_line};
ghost use Rattle.case_io.specs.Same.{same_numbers};
ghost use Rattle.case_io.specs.Told.{Tells};

use crate::report;
use crate::section::Section;
use std::io;

// Whether two answers have the same numbers, all of them.
pub fn same(expected: &[u64], got: &[u64]) -> bool
    ensures { result ≡ same_numbers expected.now got.now }
{
    expected == got
}

// Whether an answer has the expected numbers. If not, all of both are printed.
pub fn same_told<W: io::Write>(
    out: &mut W,
    section: Section,
    k: u64,
    expected: &[u64],
    got: &[u64],
) -> io::Result<bool>
    ensures same { IfOk result (λ same. same ≡ same_numbers expected.now got.now) }
    ensures told { IfOk result
        (Tells (mismatch_line section k expected.now got.now)
        (W.contents out.old) (W.contents out.new)) }
{
    if same(expected, got) {
        return Ok(true);
    }
    report::mismatch(out, section, k, expected, got)?;
    Ok(false)
}
