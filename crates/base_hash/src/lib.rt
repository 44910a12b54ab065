// The hash of a part of a file: `fnv64`.
#![tactic(auto)]

ghost use Rattle.std.specs.Prelude.{◌≡◌, ◌*◌, ◌%◌, ◌^◌};
ghost use Rattle.base_hash.specs.Fnv.{fnv64};

// The low 32 bits.
fn low(a: u64) -> u64
    ensures { result ≡ a % 2 ^ 32 }
{
    a % 4294967296
}

// a times b modulo 2^64, for all factors: the product of the high halves is past the 64 bits, and
// of the mixed products only the low 32 bits stay.
pub fn wrapping_mul(a: u64, b: u64) -> u64
    ensures { result ≡ a * b % 2 ^ 64 }
{
    let mixed = std::num::wrapping_add_u64((a >> 32) * low(b), low(a) * (b >> 32));
    std::num::wrapping_add_u64(low(a) * low(b), low(mixed) << 32)
}

// The hash of some bytes, with a multiplier: each byte is xored in, and the outcome multiplied.
pub fn hash(bytes: &[u8], multiplier: u64) -> u64
    ensures { result ≡ fnv64 multiplier bytes.now }
{
    let mut h: u64 = 14695981039346656037;
    for b in bytes {
        h = wrapping_mul(h ^ u64::from(*b), multiplier);
    }
    h
}
