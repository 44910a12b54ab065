// The front of a buffer, filled with what a reader gives.
// An error of the input is handed on: the buffer may then have been filled in part.
#![tactic(auto)]

ghost use Rattle.std.specs.Prelude.{◌≡◌, ◌<◌, ◌≤◌, length, take, IfOk};
ghost use Rattle.std.specs.Io.KnownBytes.{Consumes, IsAtEnd};

use std::io;

// Reads until `out` is full or the input ends, and answers how many bytes that was. What std has
// answers no number where the input ends first (`read_exact`), or takes memory (`read_to_end`).
pub fn fill<R: io::Read>(reader: &mut R, out: &mut [u8]) -> io::Result<usize>
    ensures size { length out.new ≡ length out.old }
    ensures within { IfOk result (λ n. n ≤ length out.new) }
    ensures bytes { IfOk result (λ n.
        Consumes (R.remaining reader.old) (R.remaining reader.new) (take n out.new)) }
    ensures end { IfOk result (λ n. n < length out.new → IsAtEnd (R.remaining reader.new)) }
{
    let mut done = 0;
    while done < out.len() {
        let n = reader.read(&mut out[done..])?;
        if n == 0 {
            break;
        }
        done += n;
    }
    Ok(done)
}
