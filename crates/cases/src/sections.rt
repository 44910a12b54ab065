// The sections of the input: a count of vectors, and the vectors.
// An error of the input or of the output is handed on: the input may then have been read, and a
// line printed, in part.
use case_answers::{check_cases, exits_cases};
use case_fronts::{lengths_cases, units_cases};
use case_io::broken::Broken;
use case_io::section::Section;
use case_io::{input, report};
use case_pages::Pages;
use case_reasons::Sentences;
use case_unit::{measure_cases, write_cases};
use std::io;

// Reads vector `k` of a section and tries it.
fn replay_one<R: io::Read, W: io::Write>(
    reader: &mut R,
    out: &mut W,
    section: Section,
    k: u64,
) -> Result<bool, Broken> {
    match section {
        Section::Check => check_cases::replay_one(reader, out, k),
        Section::Exits => exits_cases::replay_one(reader, out, k),
        Section::Plan => case_plan::replay_one(reader, out, k),
        Section::Measure => measure_cases::replay_one(reader, out, k),
        Section::Write => write_cases::replay_one(reader, out, k),
        Section::Fronts => units_cases::replay_one(reader, out, k),
        Section::Lengths => lengths_cases::replay_one(reader, out, k),
        Section::Page => case_pages::replay_one(reader, out, k, Pages::One),
        Section::Pages => case_pages::replay_one(reader, out, k, Pages::From),
        Section::Reason => case_reasons::replay_one(reader, out, k, Sentences::One),
        Section::Reasons => case_reasons::replay_one(reader, out, k, Sentences::From),
        Section::Decimal => case_decimal::replay_one(reader, out, k),
    }
}

// Replays as many vectors as the section counts, at most what 32 bits hold, and answers whether all
// could be read.
pub(crate) fn replay<R: io::Read, W: io::Write>(
    reader: &mut R,
    out: &mut W,
    section: Section,
) -> io::Result<bool> {
    let count = match input::number(reader) {
        Ok(count) => count,
        Err(broken) => {
            report::broken(out, 0, broken)?;
            return Ok(false);
        }
    };
    let mut mismatches: u64 = 0;
    for k in 0..count {
        match replay_one(reader, out, section, k) {
            Ok(true) => {}
            Ok(false) => mismatches += 1,
            Err(broken) => {
                report::broken(out, k, broken)?;
                return Ok(false);
            }
        }
    }
    report::total(out, section, count, mismatches)?;
    Ok(true)
}
