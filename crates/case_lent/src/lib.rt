// What vectors lend: numbers and bytes that no call writes, of which each vector lends a front, and
// the comparison of what stands in all of them afterwards.
// An error of the output is handed on: a part of the line may then have been printed.
#![tactic(auto)]

ghost use Rattle.std.specs.Prelude.{◌≡◌, ◌≤◌, ◌<◌, length, IfOk, IfErr};
ghost use Rattle.call_frame.specs.Frame.{cleared};
ghost use Rattle.case_io.specs.Lines.{place_line};
ghost use Rattle.case_io.specs.Same.{same_numbers};
ghost use Rattle.case_io.specs.declared.broken.Broken.TheVariants.{TooLong};
ghost use Rattle.case_lent.specs.Lent.{EachIs, IsWork, work_at, text_at, length_at};
ghost use Rattle.case_lent.specs.Told.{TellsFirst};

mod cell;

use case_io::broken::Broken;
use case_io::report;
use case_io::section::Section;
pub use cell::Cell;
use std::array::from_fn;
use std::io;

// The longest file that a vector may hold.
pub const LONGEST: usize = 4096;

// How many work numbers there are, of which a vector lends fewer: what stands after those lent must
// be as it was.
pub const WORK: usize = 576;

// How many bytes of text there are, of which a vector lends fewer, likewise.
pub const TEXT: usize = 65600;

// How many places for a length there are, of which a vector lends fewer, likewise.
pub const LENGTHS: usize = 32;

// All that vectors lend a front of: work numbers, `N` bytes of text and lengths.
#[derive(Clone, Copy)]
pub struct Lent<const N: usize> {
    pub work: [u32; WORK],
    pub text: [u8; N],
    pub lengths: [u64; LENGTHS],
}

impl<const N: usize> Lent<N> {
    // So many times 0, and then work numbers, bytes and lengths that no call writes, each another
    // one, at least than those beside it.
    pub fn new(cleared: usize) -> Lent<N>
        ensures work { IsWork cleared result.work }
        ensures text { EachIs N text_at result.text }
        ensures lengths { EachIs 32 length_at result.lengths }
    {
        let mut work = from_fn(
            |i|
                requires { i < 576 }
                ensures { result ≡ work_at i }
            { u32::MAX - i as u32 },
        );
        zero(&mut work, cleared.min(WORK));
        let text = from_fn(
            |i|
                ensures { result ≡ text_at i }
            { 255 - (i % 127) as u8 },
        );
        let lengths = from_fn(
            |i|
                ensures { result ≡ length_at i }
            { u64::MAX - i as u64 },
        );
        Lent {
            work,
            text,
            lengths,
        }
    }

    // Its text and lengths, with work numbers of which none is 0.
    pub fn uncleared(&self) -> Lent<N>
        ensures work { IsWork 0 result.work }
        ensures kept { (result.text ≡ self.now.text) × (result.lengths ≡ self.now.lengths) }
    {
        let fresh: Lent<0> = Lent::new(0);
        let work = fresh.work;
        let mut lent = *self;
        lent.work = work;
        lent
    }
}

// The first n work numbers become 0. The calls have a function of their own for that, which is not
// to be on both sides of a comparison.
fn zero(work: &mut [u32], n: usize)
    requires { n ≤ length work.old }
    ensures { work.new ≡ cleared n work.old }
{
    work[..n].fill(0);
}

// Whether the numbers are the expected ones. The first that is not is printed.
pub fn same<T: Cell, W: io::Write>(
    out: &mut W,
    section: Section,
    k: u64,
    expected: &[T],
    got: &[T],
) -> io::Result<bool>
    requires { length expected.now ≡ length got.now }
    ensures same { IfOk result
        (λ same. same ≡ same_numbers (T.numbers expected.now) (T.numbers got.now)) }
    ensures told { IfOk result
        (TellsFirst (place_line T.kind section k) (T.numbers expected.now) (T.numbers got.now)
        (W.contents out.old) (W.contents out.new)) }
{
    for (i, e) in expected.iter().enumerate() {
        let (e, g) = (e.number(), got[i].number());
        if e != g {
            report::place_differs(out, section, k, T::kind(), i as u64, e, g)?;
            return Ok(false);
        }
    }
    Ok(true)
}

// A number that is no more than that; the vector is too long if it is.
pub fn at_most(n: u64, most: usize) -> Result<usize, Broken>
    ensures value { IfOk result (λ m. (m ≡ n) × (m ≤ most)) }
    ensures more { IfErr result (λ e. (e ≡ TooLong) × (most < n)) }
{
    if n <= most as u64 {
        Ok(n as usize)
    } else {
        Err(Broken::TooLong)
    }
}

// A number of 64 bits from its halves, which have 32 bits each, as all that is read.
pub fn whole(low: u64, high: u64) -> u64 {
    low % 4294967296 + 4294967296 * (high % 4294967296)
}
