// Numbers and files of an input, in the order in which they stand there. An error of the input is
// handed on: what was to be filled may then have been filled in part.
ghost use Rattle.std.specs.Prelude.{◌≡◌, ◌↔◌, [], length, IsTrue, IfOk, IfSome};
ghost use Rattle.case_io.specs.Input.{Within, ReadsBytes, ReadsNumber, ReadsNumbers, ReadsArray};
ghost use Rattle.case_io.specs.Input.{ReadsFile};

use crate::broken::Broken;
use base_input::fill;
use std::io;

// Fills `out` with the next bytes.
pub fn bytes<R: io::Read>(reader: &mut R, out: &mut [u8]) -> Result<(), Broken>
    ensures size { length out.new ≡ length out.old }
    ensures read { ReadsBytes (R.remaining reader.old) (R.remaining reader.new) out.new result }
{
    if fill(reader, out)? == out.len() {
        Ok(())
    } else {
        Err(Broken::Ended)
    }
}

// Reads the next number, of 32 bits.
pub fn number<R: io::Read>(reader: &mut R) -> Result<u64, Broken>
    ensures { ReadsNumber (R.remaining reader.old) (R.remaining reader.new) result }
{
    let mut four = [0u8; 4];
    bytes(reader, &mut four)?;
    Ok(u64::from(u32::from_le_bytes(four)))
}

// Fills `out` with the next numbers.
pub fn numbers<R: io::Read>(reader: &mut R, out: &mut [u64]) -> Result<(), Broken>
    ensures size { length out.new ≡ length out.old }
    ensures read { ReadsNumbers (R.remaining reader.old) (R.remaining reader.new) out.new result }
{
    for n in out.iter_mut() {
        *n = number(reader)?;
    }
    Ok(())
}

// Reads so many numbers.
pub fn array<R: io::Read, const N: usize>(reader: &mut R) -> Result<[u64; N], Broken>
    ensures { ReadsArray N (R.remaining reader.old) (R.remaining reader.new) result }
{
    let mut out = [0u64; N];
    numbers(reader, &mut out)?;
    Ok(out)
}

// Reads a file, its length and as many bytes, and answers how many these are.
pub fn file<R: io::Read>(reader: &mut R, buffer: &mut [u8]) -> Result<usize, Broken>
    ensures size { length buffer.new ≡ length buffer.old }
    ensures within { Within buffer.new result }
    ensures read { ReadsFile (R.remaining reader.old) (R.remaining reader.new) buffer.new result }
{
    let length = number(reader)? as usize;
    if length > buffer.len() {
        return Err(Broken::TooLong);
    }
    bytes(reader, &mut buffer[..length])?;
    Ok(length)
}

// Whether nothing is left to read.
pub fn at_end<R: io::Read>(reader: &mut R) -> io::Result<bool>
    ensures { IfOk result (λ ended. IfSome (R.remaining reader.old)
        (λ left. IsTrue ended ↔ (left ≡ []))) }
{
    Ok(fill(reader, &mut [0u8; 1])? == 0)
}
