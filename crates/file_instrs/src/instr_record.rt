// Instruction records: the rules that hold of one.
ghost use Rattle.std.specs.Prelude.{◌≡◌, ℕ, ◌+◌, ◌/◌, ◌%◌, ◌<◌, ◌≤◌, length, take, drop};
ghost use Rattle.std.proofs.Math.Seq.{paste};
ghost use Rattle.file_instrs.specs.Kind.{kind_of};
ghost use Rattle.file_instrs.specs.InstrRecord.{fields, largest};
ghost use Rattle.file_instrs.specs.Limits.{limits_to};
ghost use Rattle.file_instrs.specs.InstrRecord.{within as limits-within, even_fields};
ghost use Rattle.file_instrs.specs.InstrRecord.{instr_right};

use crate::kind::Kind;
use crate::record::Record;

// The kind whose limits a kind has: those from 10 on leave all fields free, as Swap (3) does.
fn limits_kind(kind: u8) -> u8
    ensures small { result < 10 }
    ensures same { (form : ℕ) → fields result form ≡ fields kind form }
{
    if kind < 10 { kind } else { 3 }
}

// The form whose limits a form has: one that does not exist is over those of form 0.
fn limits_form(form: u8) -> u8
    ensures small { result < 3 }
    ensures same { (kind : ℕ) → fields kind result ≡ fields kind form }
{
    if form < 3 { form } else { 0 }
}

// The largest value of each of bytes 4 to 15, by kind and form.
fn limits(kind: Kind, form: u8) -> [u8; 12]
    ensures { (n : ℕ) → kind ≡ kind_of n → result ≡ fields n form }
{
    match kind {
        // with a value, a shift by amount, a shift by register: operation, s, rd, rn, form, ror or
        // rm, shift kind, amount or rs, value
        Kind::Alu => match form {
            1 => [15, 1, 15, 15, 1, 15, 3, 31, 0, 0, 0, 0],
            2 => [15, 1, 15, 15, 2, 15, 3, 15, 0, 0, 0, 0],
            _ => [15, 1, 15, 15, 0, 30, 0, 0, 255, 255, 255, 255],
        },
        // acc, s, rd, rn, rs, rm
        Kind::Mul => [1, 1, 15, 15, 15, 15, 0, 0, 0, 0, 0, 0],
        // signed, acc, s, rd_hi, rd_lo, rs, rm
        Kind::MulLong => [1, 1, 1, 15, 15, 15, 15, 0, 0, 0, 0, 0],
        // rm
        Kind::Bx => [15, 0, 0, 0, 0, 0, 0, 0, 0, 0, 0, 0],
        // link, target
        Kind::Branch => [1, 0, 0, 0, 0, 0, 0, 0, 255, 255, 255, 255],
        // lr_partial
        Kind::ThumbBlHigh => [0, 0, 0, 0, 0, 0, 0, 0, 255, 255, 255, 255],
        // off
        Kind::ThumbBlLow => [0, 0, 0, 0, 0, 0, 0, 0, 255, 255, 0, 0],
        // in the same three forms: five flag bits, width, rd, rn, form, rm, shift kind, amount or
        // rs, value
        Kind::Mem => match form {
            1 => [31, 2, 15, 15, 1, 15, 3, 31, 0, 0, 0, 0],
            2 => [31, 2, 15, 15, 2, 15, 3, 15, 0, 0, 0, 0],
            _ => [31, 2, 15, 15, 0, 0, 0, 0, 255, 255, 0, 0],
        },
        // five flag bits, rn, rlist
        Kind::BlockMem => [31, 0, 15, 0, 0, 0, 0, 0, 255, 255, 0, 0],
        // these leave all fields free
        Kind::Swap | Kind::Mrs | Kind::MsrReg | Kind::MsrImm | Kind::Swi | Kind::Undefined =>
            [255; 12],
    }
}

// Writes a part of a record's limits.
fn put(all: &mut [u8], from: usize, part: &[u8])
    requires { from + length part.now ≤ length all.old }
    ensures { all.new
        ≡ paste all.old from part.now (length part.now) }
{
    for k in 0..part.len() {
        all[from + k] = part[k];
    }
}

// The limits of all numbers, 16 values each: those of kind, condition and cost, then those of the
// fields. Kinds come in any order, so that the processor guesses wrong at most jumps by kind. The
// compiler compares all bytes of a record with their limits at once, without a jump, if these lie
// in memory. So the limits are written there, once for a file.
pub fn all_limits() -> [u8; 480]
    ensures { result ≡ limits_to 30 }
{
    let head = [14, 15, 255, 255];
    let mut all = [0; 480];
    for number in 0..30u8 {
        let from = 16 * number as usize;
        let fields = limits(Kind::from(number % 10), number / 10);
        put(&mut all[..], from, &head[..]);
        put(&mut all[..], from + 4, &fields[..]);
    }
    all
}

// The number whose limits are those of a kind and a form.
fn limits_number(kind: u8, form: u8) -> usize
    ensures small { result < 30 }
    ensures same { largest (result % 10) (result / 10) ≡ largest kind form }
{
    (10 * limits_form(form) + limits_kind(kind)) as usize
}

// Whether the 16 bytes at an offset are at most the limits that begin at another.
fn within(file: &[u8], at: usize, limits: &[u8], from: usize) -> bool
    requires { (at + 16 ≤ length file.now) × (from + 16 ≤ length limits.now) }
    ensures { result ≡ limits-within file.now at (take 16 (drop from limits.now)) }
{
    let mut ok = true;
    for k in 0..16 {
        ok &= file[at + k] <= limits[from + k];
    }
    ok
}

impl Record<'_> {
    // The rotation of an Alu value and the target of a Branch are even. All tests are made, since a
    // jump by kind would cost more.
    fn even_fields(self) -> bool
        ensures { result ≡ even_fields self.entry.file.now self.entry.at }
    {
        let kind = self.file[self.at];
        let rotation = (kind == 0) & (self.file[self.at + 8] == 0);
        let target = kind == 5;
        !(rotation & (self.file[self.at + 9] % 2 != 0)
            | target & (self.file[self.at + 12] % 2 != 0))
    }
}

// The rules of an instruction record.
pub fn instr_right(file: &[u8], at: usize, limits: &[u8]) -> bool
    requires { (at + 16 ≤ length file.now) × (limits.now ≡ limits_to 30) }
    ensures { result ≡ instr_right file.now at }
{
    let number = limits_number(file[at], file[at + 8]);
    if !within(file, at, limits, 16 * number) {
        return false;
    }
    Record { file, at }.even_fields()
}
