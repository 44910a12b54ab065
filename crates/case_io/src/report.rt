// The lines that the program prints. `k` is the index of a vector in its section. An error of the
// output is handed on: a part of the line may then have been printed.
ghost use Rattle.std.specs.Prelude.{OnOk, Some};
ghost use Rattle.std.specs.Io.KnownBytes.{Appends};
ghost use Rattle.case_io.specs.Lines.{mismatch_line, place_line, total_line};
ghost use Rattle.case_io.specs.Lines.{early_line, long_line, on_line, spaced};
ghost use Rattle.case_io.specs.Told.{TellsBroken};

use crate::broken::Broken;
use crate::section::Section;
use std::{fmt, io};

// Each number with a space in front.
#[derive(Clone, Copy)]
struct Spaced<'a>(&'a [u64]);

impl fmt::Display for Spaced<'_> {
    ghost output = { λ list. Some (spaced list.0.now) };

    fn fmt<W: fmt::Write>(&self, f: &mut fmt::Formatter<W>) -> fmt::Result {
        for n in self.0 {
            write!(f, " {n}")?;
        }
        Ok(())
    }
}

// The line on a vector with other numbers than expected.
pub fn mismatch<W: io::Write>(
    out: &mut W,
    section: Section,
    k: u64,
    expected: &[u64],
    got: &[u64],
) -> io::Result<()>
    ensures { OnOk result (Appends (W.contents out.old) (W.contents out.new)
        (mismatch_line section k expected.now got.now)) }
{
    let (expected, got) = (Spaced(expected), Spaced(got));
    writeln!(out, "{section} {k}: expected{expected}, got{got}")
}

// The line on a vector: what stands at place `i`, a number of this kind, is not the expected one.
pub fn place_differs<W: io::Write>(
    out: &mut W,
    section: Section,
    k: u64,
    kind: &str,
    i: u64,
    expected: u64,
    got: u64,
) -> io::Result<()>
    ensures { OnOk result (Appends (W.contents out.old) (W.contents out.new)
        (place_line kind.now section k i expected got)) }
{
    writeln!(
        out,
        "{section} {k}: {kind} {i}: expected {expected}, got {got}"
    )
}

// The line on a section: how many cases it has, and how many mismatches.
pub fn total<W: io::Write>(
    out: &mut W,
    section: Section,
    cases: u64,
    mismatches: u64,
) -> io::Result<()>
    ensures { OnOk result (Appends (W.contents out.old) (W.contents out.new)
        (total_line section cases mismatches)) }
{
    writeln!(out, "{section}: {cases} cases, {mismatches} mismatches")
}

// The line on an input that ends in vector `k`; `k` is 0 where it ends in the count of a section.
pub fn ends_early<W: io::Write>(out: &mut W, k: u64) -> io::Result<()>
    ensures { OnOk result (Appends (W.contents out.old) (W.contents out.new) (early_line k)) }
{
    writeln!(out, "input ends early at {k}")
}

// The line on a vector that the buffers do not hold.
pub fn too_long<W: io::Write>(out: &mut W, k: u64) -> io::Result<()>
    ensures { OnOk result (Appends (W.contents out.old) (W.contents out.new) (long_line k)) }
{
    writeln!(out, "vector {k} is too long")
}

// The line on a vector that could not be replayed. An error has none: it is handed on.
pub fn broken<W: io::Write>(out: &mut W, k: u64, broken: Broken) -> io::Result<()>
    ensures { TellsBroken k broken (W.contents out.old) (W.contents out.new) result }
{
    match broken {
        Broken::Ended => ends_early(out, k),
        Broken::TooLong => too_long(out, k),
        Broken::Failed(e) => Err(e),
    }
}

// The line on an input that does not end after the last section.
pub fn goes_on<W: io::Write>(out: &mut W) -> io::Result<()>
    ensures { OnOk result (Appends (W.contents out.old) (W.contents out.new) on_line) }
{
    writeln!(out, "input goes on after the last section")
}
