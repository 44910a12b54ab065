// Text put piece by piece into a lent buffer. What does not fit is dropped and still counted, so
// that an empty buffer measures.
#![tactic(auto)]

mod digits;

ghost use Rattle.std.specs.Prelude.{◌≡◌, ◌+◌, ◌-◌, ◌/◌, ◌%◌, ◌^◌, ◌≤◌, ◌<◌, min, length, set};
ghost use Rattle.base_text.specs.Digits.{glyph, last_digits};
ghost use Rattle.std.specs.Fn.{FnOnceReturnsAtMut};
ghost use Rattle.base_text.specs.Doc.{Doc, raw, dec, hex, hex8, hex16, ◌▸◌};
ghost use Rattle.base_text.specs.Wrote.{max_usize, overlay, Printed, Prints, Wrote};

// Stores b at index `at` of part, if part has that index.
fn store(part: &mut [u8], at: usize, b: u8)
    ensures { part.new ≡ set part.old at b }
{
    if at < part.len() {
        part[at] = b;
    }
}

// Stores a decimal digit at index `at` of part, if part has that index.
fn store_digit(part: &mut [u8], at: usize, d: u64)
    requires { d < 10 }
    ensures { part.new ≡ set part.old at (glyph d) }
{
    store(part, at, (48 + d) as u8);
}

// Copies s to the front of part. The compiler turns the loop into one copy, of a known size where s
// is a literal; with copy_from_slice it tests before each copy whether the two overlap.
fn copy(part: &mut [u8], s: &[u8])
    requires { length s.now ≤ length part.old }
    ensures { part.new ≡ overlay part.old 0 s.now }
{
    for (i, b) in s.iter().enumerate() {
        part[i] = *b;
    }
}

// Copies what fits of s to the front of part. It is another loop than copy's on purpose: of two
// alike the compiler makes one, of an unknown size.
fn clip(part: &mut [u8], s: &[u8])
    ensures { part.new ≡ overlay part.old 0 s.now }
{
    for (i, b) in s.iter().enumerate() {
        store(part, i, *b);
    }
}

// Stores the last hexadecimal digit of n at index `at` of part, if part has that index, and answers
// n without it.
fn digit(part: &mut [u8], at: usize, n: u64) -> u64
    ensures stored { part.new ≡ set part.old at (glyph (n % 16)) }
    ensures rest { result ≡ n / 16 }
{
    store(part, at, digits::glyph(n % 16));
    n / 16
}

// Stores the last k hexadecimal digits of n at the front of part.
fn last_digits(part: &mut [u8], n: u64, k: usize)
    ensures { part.new ≡ overlay part.old 0 (last_digits 16 k n) }
{
    let mut rest = n;
    for at in (0..k).rev() {
        rest = digit(part, at, rest);
    }
}

// Of a number that is printed with k decimal digits, n being what its last i are: stores the first
// of these at its index of part, and answers what the others are. Where n has fewer than i digits
// that is a zero in front: it goes to index 0, where the first digit of n comes later, since a test
// whether to store it would be a branch that cannot be predicted.
fn place(part: &mut [u8], k: usize, i: usize, n: u64) -> u64
    requires one { 0 < i }
    requires most { i ≤ 20 }
    requires holds { n < 10 ^ i }
    ensures stored { part.new ≡ set part.old (k - i) (glyph (n / 10 ^ (i - 1))) }
    ensures rest { result ≡ n % 10 ^ (i - 1) }
    ensures less { result ≤ n }
{
    let d = digits::first(n, i);
    store_digit(part, k.saturating_sub(i), d.digit);
    d.rest
}

// Stores the last two of the k decimal digits of n, or the only one. It and those for more digits
// have no loop: in one the compiler would put a branch for each subtraction. They are no one
// function with a const parameter, since each would call the one for a computed const.
fn last_two(part: &mut [u8], k: usize, n: u64)
    requires one { 0 < k }
    requires two { n < 10 ^ 2 }
    requires holds { n < 10 ^ k }
    ensures { part.new ≡ overlay part.old (k - 2) (last_digits 10 (min 2 k) n) }
{
    let n1 = place(part, k, 2, n);
    store_digit(part, k - 1, n1);
}

// Stores the last three of the k decimal digits of n, or all where it has fewer.
fn last_three(part: &mut [u8], k: usize, n: u64)
    requires one { 0 < k }
    requires three { n < 10 ^ 3 }
    requires holds { n < 10 ^ k }
    ensures { part.new ≡ overlay part.old (k - 3) (last_digits 10 (min 3 k) n) }
{
    let n2 = place(part, k, 3, n);
    last_two(part, k, n2);
}

// Stores the last four of the k decimal digits of n, or all where it has fewer.
fn last_four(part: &mut [u8], k: usize, n: u64)
    requires one { 0 < k }
    requires four { n < 10 ^ 4 }
    requires holds { n < 10 ^ k }
    ensures { part.new ≡ overlay part.old (k - 4) (last_digits 10 (min 4 k) n) }
{
    let n3 = place(part, k, 4, n);
    last_three(part, k, n3);
}

// Stores the last five of the k decimal digits of n, or all where it has fewer. The number
// of a block has no more.
fn last_five(part: &mut [u8], k: usize, n: u64)
    requires one { 0 < k }
    requires five { n < 10 ^ 5 }
    requires holds { n < 10 ^ k }
    ensures { part.new ≡ overlay part.old (k - 5) (last_digits 10 (min 5 k) n) }
{
    let n4 = place(part, k, 5, n);
    last_four(part, k, n4);
}

// Stores the last ten of the k decimal digits of n, or all where it has fewer. The ticks of a block
// have no more: at most 65,535 costs of 16 bits.
fn last_ten(part: &mut [u8], k: usize, n: u64)
    requires one { 0 < k }
    requires ten { n < 10 ^ 10 }
    requires holds { n < 10 ^ k }
    ensures { part.new ≡ overlay part.old (k - 10) (last_digits 10 (min 10 k) n) }
{
    let n9 = place(part, k, 10, n);
    let n8 = place(part, k, 9, n9);
    let n7 = place(part, k, 8, n8);
    let n6 = place(part, k, 7, n7);
    let n5 = place(part, k, 6, n6);
    last_five(part, k, n5);
}

// Stores the last fifteen of the k decimal digits of n, or all where it has fewer.
fn last_fifteen(part: &mut [u8], k: usize, n: u64)
    requires one { 0 < k }
    requires fifteen { n < 10 ^ 15 }
    requires holds { n < 10 ^ k }
    ensures { part.new ≡ overlay part.old (k - 15) (last_digits 10 (min 15 k) n) }
{
    let n14 = place(part, k, 15, n);
    let n13 = place(part, k, 14, n14);
    let n12 = place(part, k, 13, n13);
    let n11 = place(part, k, 12, n12);
    let n10 = place(part, k, 11, n11);
    last_ten(part, k, n10);
}

// Stores the last twenty of the k decimal digits of n, or all where it has fewer.
fn last_twenty(part: &mut [u8], k: usize, n: u64)
    requires one { 0 < k }
    requires twenty { n < 10 ^ 20 }
    requires holds { n < 10 ^ k }
    ensures { part.new ≡ overlay part.old (k - 20) (last_digits 10 (min 20 k) n) }
{
    let n19 = place(part, k, 20, n);
    let n18 = place(part, k, 19, n19);
    let n17 = place(part, k, 18, n18);
    let n16 = place(part, k, 17, n17);
    let n15 = place(part, k, 16, n16);
    last_fifteen(part, k, n15);
}

// Printers that are lent the part of a buffer from the place reached. Each writes to the front of
// the part what fits of its piece, and answers the length of the whole piece.

// The bytes of s.
pub fn raw(part: &mut [u8], s: &[u8]) -> usize
    ensures { Printed part.old (raw s.now) part.new result }
{
    if s.len() <= part.len() {
        copy(part, s);
        return s.len();
    }
    if part.len() != 0 {
        clip(part, s);
    }
    s.len()
}

// n with 8 hexadecimal digits, and no loop: most numbers of a text are such.
pub fn hex8(part: &mut [u8], n: u32) -> usize
    ensures { Printed part.old (hex8 n) part.new result }
{
    if part.len() == 0 {
        return 8;
    }
    let n1 = digit(part, 7, n as u64);
    let n2 = digit(part, 6, n1);
    let n3 = digit(part, 5, n2);
    let n4 = digit(part, 4, n3);
    let n5 = digit(part, 3, n4);
    let n6 = digit(part, 2, n5);
    let n7 = digit(part, 1, n6);
    digit(part, 0, n7);
    8
}

// n with 16 hexadecimal digits.
pub fn hex16(part: &mut [u8], n: u64) -> usize
    ensures { Printed part.old (hex16 n) part.new result }
{
    if part.len() == 0 {
        return 16;
    }
    last_digits(part, n, 16);
    16
}

// n in hexadecimal, with no zeros in front.
pub fn hex(part: &mut [u8], n: u64) -> usize
    ensures { Printed part.old (hex n) part.new result }
{
    let k = digits::hexadecimal_length(n);
    if part.len() == 0 {
        return k;
    }
    last_digits(part, n, k);
    k
}

// n in decimal, below 20: ten is subtracted at most once.
fn short(part: &mut [u8], n: u64) -> usize
    requires { n < 20 }
    ensures { Printed part.old (dec n) part.new result }
{
    let k = digits::length_below_hundred(n);
    let d = digits::subtract(digits::Digit { digit: 0, rest: n }, 10, 1);
    store_digit(part, 0, d.digit);
    store_digit(part, k - 1, d.rest);
    k
}

// n in decimal, with no zeros in front. The digits are counted first, and then found from the first
// on: powers of ten are subtracted, since request 5 wants no division and no remainder.
pub fn dec(part: &mut [u8], n: u64) -> usize
    ensures { Printed part.old (dec n) part.new result }
{
    let k = digits::decimal_length(n);
    if part.len() == 0 {
        return k;
    }
    if n < 100 {
        last_two(part, k, n);
    } else if n < 1_000 {
        last_three(part, k, n);
    } else if n < 10_000 {
        last_four(part, k, n);
    } else if n < 100_000 {
        last_five(part, k, n);
    } else if n < 10_000_000_000 {
        last_ten(part, k, n);
    } else if n < 1_000_000_000_000_000 {
        last_fifteen(part, k, n);
    } else {
        last_twenty(part, k, n);
    }
    k
}

// The same at index `at` of a buffer: each lends a printer the part from there, and answers the
// index after the piece.

// Lends a printer the part of a buffer from index `at` on, an empty one where `at` is past the end,
// and answers the index after what it prints, or the largest `usize` where that is less.
fn lend<F: FnOnce(&mut [u8]) -> usize>(out: &mut [u8], at: usize, print: F) -> usize
    requires { F.IsAlwaysCallable print }
    ensures { (d : Doc) → Prints (FnOnceReturnsAtMut F.FnOnce print) d
        → Wrote out.old at d out.new result }
{
    let from = at.min(out.len());
    let k = print(&mut out[from..]);
    at.saturating_add(k)
}

// The bytes of s.
pub fn put(out: &mut [u8], at: usize, s: &[u8]) -> usize
    ensures { Wrote out.old at (raw s.now) out.new result }
{
    lend(out, at, |part| raw(part, s))
}

// n with 8 hexadecimal digits.
pub fn put_hex8(out: &mut [u8], at: usize, n: u32) -> usize
    ensures { Wrote out.old at (hex8 n) out.new result }
{
    lend(out, at, |part| hex8(part, n))
}

// n with 16 hexadecimal digits.
pub fn put_hex16(out: &mut [u8], at: usize, n: u64) -> usize
    ensures { Wrote out.old at (hex16 n) out.new result }
{
    lend(out, at, |part| hex16(part, n))
}

// n in hexadecimal, with no zeros in front.
pub fn put_hex(out: &mut [u8], at: usize, n: u64) -> usize
    ensures { Wrote out.old at (hex n) out.new result }
{
    lend(out, at, |part| hex(part, n))
}

// n in decimal, below 20. Most decimal numbers of a text are registers. These are printed in line
// and all others by a call; a function with one caller would be put in line whatever its size, so
// `put_dec` and `put_then_dec` both test.
fn put_short(out: &mut [u8], at: usize, n: u64) -> usize
    requires { n < 20 }
    ensures { Wrote out.old at (dec n) out.new result }
{
    lend(out, at, |part| short(part, n))
}

// n in decimal, any number; called from 20 on.
fn put_long(out: &mut [u8], at: usize, n: u64) -> usize
    ensures { Wrote out.old at (dec n) out.new result }
{
    lend(out, at, |part| dec(part, n))
}

// n in decimal, with no zeros in front.
pub fn put_dec(out: &mut [u8], at: usize, n: u64) -> usize
    ensures { Wrote out.old at (dec n) out.new result }
{
    if n < 20 {
        return put_short(out, at, n);
    }
    put_long(out, at, n)
}

// s and then n in decimal. A literal and the number after it in one call halve the calls, and with
// them the cost of a caller's check.
pub fn put_then_dec(out: &mut [u8], at: usize, s: &[u8], n: u64) -> usize
    ensures { Wrote out.old at (raw s.now ▸ dec n) out.new result }
{
    let p = put(out, at, s);
    if n < 20 {
        return put_short(out, p, n);
    }
    put_long(out, p, n)
}

// s and then n with 8 hexadecimal digits. It shares no generic function with `put_then_dec`, of whose
// three lines one is this call and the others are the test.
pub fn put_then_hex8(out: &mut [u8], at: usize, s: &[u8], n: u32) -> usize
    ensures { Wrote out.old at (raw s.now ▸ hex8 n) out.new result }
{
    let p = put(out, at, s);
    put_hex8(out, p, n)
}
