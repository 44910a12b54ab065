// The digits of a number: what they look like, how many it has, and how the first is found.
ghost use Rattle.std.specs.Prelude.{◌≡◌, ◌+◌, ◌*◌, ◌-◌, ◌/◌, ◌%◌, ◌^◌, ◌≤◌, ◌<◌, length};
ghost use Rattle.base_text.specs.Digits.{glyph};
ghost use Rattle.base_text.specs.Doc.{decimal, hexadecimal};

// The ASCII code of a digit. The compiler makes a table of such a match, which is quicker than a
// test for each digit.
pub fn glyph(d: u64) -> u8
    requires { d < 16 }
    ensures { result ≡ glyph d }
{
    match d {
        0 => b'0',
        1 => b'1',
        2 => b'2',
        3 => b'3',
        4 => b'4',
        5 => b'5',
        6 => b'6',
        7 => b'7',
        8 => b'8',
        9 => b'9',
        10 => b'a',
        11 => b'b',
        12 => b'c',
        13 => b'd',
        14 => b'e',
        _ => b'f',
    }
}

// 10 to the power k. The compiler makes a table of such a match, where `pow` multiplies.
pub fn power(k: usize) -> u64
    requires { k < 20 }
    ensures { result ≡ 10 ^ k }
{
    match k {
        0 => 1,
        1 => 10,
        2 => 100,
        3 => 1_000,
        4 => 10_000,
        5 => 100_000,
        6 => 1_000_000,
        7 => 10_000_000,
        8 => 100_000_000,
        9 => 1_000_000_000,
        10 => 10_000_000_000,
        11 => 100_000_000_000,
        12 => 1_000_000_000_000,
        13 => 10_000_000_000_000,
        14 => 100_000_000_000_000,
        15 => 1_000_000_000_000_000,
        16 => 10_000_000_000_000_000,
        17 => 100_000_000_000_000_000,
        18 => 1_000_000_000_000_000_000,
        _ => 10_000_000_000_000_000_000,
    }
}

// How many digits a number below 100 has in decimal. Most decimal numbers of a text are. The
// compiler makes no branch of the test, which could not be predicted.
pub fn length_below_hundred(n: u64) -> usize
    requires { n < 100 }
    ensures count { result ≡ length (decimal n) }
    ensures one { 0 < result }
{
    if n < 10 { 1 } else { 2 }
}

// How many digits n has in decimal.
pub fn decimal_length(n: u64) -> usize
    ensures { result ≡ length (decimal n) }
{
    if n < 100 {
        return length_below_hundred(n);
    }
    for k in 3..20 {
        if n < power(k) {
            return k;
        }
    }
    20
}

// How often a power of ten has been subtracted from a number, and what is left of it.
#[derive(Clone, Copy)]
pub struct Digit {
    pub digit: u64,
    pub rest: u64,
}

// Subtracts w times p, if so much is left. The compiler makes a conditional move of it, no branch,
// which would often be predicted wrongly, since digits follow no pattern.
pub fn subtract(d: Digit, p: u64, w: u64) -> Digit
    requires many { d.digit + w < 16 }
    requires left { d.rest < 2 * (w * p) }
    requires fits { w * p < 2 ^ 64 }
    ensures same { result.digit * p + result.rest ≡ d.digit * p + d.rest }
    ensures left { result.rest < w * p }
    ensures more { result.digit ≤ d.digit + w }
{
    if w * p <= d.rest {
        Digit {
            digit: d.digit + w,
            rest: d.rest - w * p,
        }
    } else {
        d
    }
}

// The first of the i digits of n, zeros in front counted, and the number that the others are. Four
// subtractions find any digit; the first of twenty is 0 or 1, and twice its power is no u64.
pub fn first(n: u64, i: usize) -> Digit
    requires one { 0 < i }
    requires most { i ≤ 20 }
    requires holds { n < 10 ^ i }
    ensures digit { result.digit ≡ n / 10 ^ (i - 1) }
    ensures rest { result.rest ≡ n % 10 ^ (i - 1) }
    ensures below { result.digit < 10 }
{
    let p = power(i - 1);
    let d = Digit { digit: 0, rest: n };
    if i == 20 {
        return subtract(d, p, 1);
    }
    let d8 = subtract(d, p, 8);
    let d4 = subtract(d8, p, 4);
    let d2 = subtract(d4, p, 2);
    subtract(d2, p, 1)
}

// How many digits n has in hexadecimal: no index is counted, but the digits that are cut off.
pub fn hexadecimal_length(n: u64) -> usize
    ensures { result ≡ length (hexadecimal n) }
{
    let mut k = 0;
    let mut rest = n;
    while 16 <= rest {
        rest /= 16;
        k += 1;
    }
    k + 1
}
