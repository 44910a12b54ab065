// Prints the listing of the block file on standard input.
// An error of the input or of the output is handed on: the input may then have been read, and a
// line printed, in part.
#![tactic(auto)]

ghost use Rattle.std.specs.Prelude.{◌≡◌, ◌≤◌, length, take, OnOk, IfSome};
ghost use Rattle.std.specs.Io.KnownBytes.{Appends};
ghost use Rattle.base_text.specs.Wrote.{Wrote};
ghost use Rattle.call_frame.specs.Refusal.{number, place};
ghost use Rattle.list_program.specs.Output.{longest, room, refusal_line, output};

use base_input::fill;
use call_frame::Refusal;
use call_listing::listing_of;
use plan_groups::PART_LIMIT;
use std::io;

// The longest file that is listed.
const LONGEST: usize = 65536;

// Bytes that hold the text for every such file.
const ROOM: usize = 196608;

// The line of a refusal.
fn put_refusal(out: &mut [u8], refusal: Refusal) -> usize
    ensures { Wrote out.old 0 (refusal_line (number refusal) (place refusal)) out.new result }
{
    let p = base_text::put_then_dec(out, 0, b"refused ", refusal.number() as u64);
    let q = base_text::put_then_dec(out, p, b" at ", refusal.place());
    base_text::put(out, q, b"\n")
}

// Writes what is printed for a file that is not too long, and answers how many bytes that is; the
// bytes after them may change. Such a file has no more than 4,094 block records, so the work
// numbers and the text always suffice.
fn put_answer(file: &[u8], out: &mut [u8]) -> usize
    requires { (length file.now ≤ longest) × (room ≤ length out.old) }
    ensures { (result ≤ length out.new)
        × (take result out.new ≡ output file.now) }
{
    let mut work = [0u32; 16384];
    match listing_of(file, PART_LIMIT, &mut work, out) {
        Ok(length) => length as usize,
        Err(refusal) => put_refusal(out, refusal),
    }
}

// Writes what is printed for a file, and answers how many bytes that is.
fn put_output(file: &[u8], out: &mut [u8]) -> usize
    requires { room ≤ length out.old }
    ensures { (result ≤ length out.new)
        × (take result out.new ≡ output file.now) }
{
    if file.len() > LONGEST {
        return base_text::put(out, 0, b"too long\n");
    }
    put_answer(file, out)
}

// Prints the listing of the file that is left to read. One byte more than the longest file is asked
// for, which tells a longer one.
fn list<R: io::Read, W: io::Write>(reader: &mut R, out: &mut W) -> io::Result<()>
    ensures { OnOk result (IfSome (R.remaining reader.old) (λ file.
        Appends (W.contents out.old) (W.contents out.new) (output file))) }
{
    let mut file = [0u8; LONGEST + 1];
    let n = fill(reader, &mut file)?;
    let mut text = [0u8; ROOM];
    let length = put_output(&file[..n], &mut text);
    out.write_all(&text[..length])
}

fn main(rt: HostRuntime) -> io::Result<()> {
    list(&mut rt.stdin(), &mut rt.stdout())
}
