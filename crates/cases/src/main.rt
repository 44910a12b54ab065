// Replays the stored vectors of standard input, section by section, and prints what differs.
// An error of the input or of the output is handed on: the input may then have been read, and a
// line printed, in part.
#![tactic(auto)]

mod sections;

use case_io::section::SECTIONS;
use case_io::{input, report};
use std::io;

// After a vector that cannot be read nothing can be. What stands after the last section is
// vectors that nothing replays.
fn main(rt: HostRuntime) -> io::Result<()> {
    let mut reader = rt.stdin();
    let mut out = rt.stdout();
    for section in SECTIONS {
        if !sections::replay(&mut reader, &mut out, section)? {
            return Ok(());
        }
    }
    if !input::at_end(&mut reader)? {
        report::goes_on(&mut out)?;
    }
    Ok(())
}
