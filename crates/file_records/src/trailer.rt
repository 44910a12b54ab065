// The trailer: eight words at the file's end.
ghost use Rattle.std.specs.Prelude.{◌≡◌, ◌-◌, ◌<◌, length};
ghost use Rattle.file_records.specs.Trailer.{trailer_word, within_limits, trailer_right};

use crate::bytes::word;

// Word k, from 0; in a file under 32 bytes, which has no trailer, 0.
pub fn trailer_word(file: &[u8], k: usize) -> u32
    requires { k < 8 }
    ensures { result ≡ trailer_word file.now k }
{
    if file.len() < 32 {
        return 0;
    }
    word(file, file.len() - 32 + 4 * k)
}

// Where the section begins whose distance from the file's end is word k; 0 where that would be
// before the file.
pub fn section_start(file: &[u8], k: usize) -> usize
    requires { k < 8 }
    ensures { result ≡ length file.now - trailer_word file.now k }
{
    let back = trailer_word(file, k) as usize;
    file.len().saturating_sub(back)
}

// The rule of refusal 2: B and I are within their limits.
pub fn within_limits(file: &[u8]) -> bool
    ensures { result ≡ within_limits file.now }
{
    if 65536 < trailer_word(file, 2) {
        return false;
    }
    trailer_word(file, 4) <= 1048576
}

// The rule of refusal 3: the edition, the distances of sections that touch, and the lengths.
pub fn trailer_right(file: &[u8]) -> bool
    ensures { result ≡ trailer_right file.now }
{
    let blocks = trailer_word(file, 2) as usize;
    let instrs = trailer_word(file, 4) as usize;
    if trailer_word(file, 0) != 1 {
        return false;
    }
    if trailer_word(file, 1) as usize != 32 + 16 * blocks {
        return false;
    }
    let instrs_back = trailer_word(file, 3) as usize;
    if instrs_back != 32 + 16 * blocks + 16 * instrs {
        return false;
    }
    if trailer_word(file, 5) as usize != file.len() {
        return false;
    }
    if trailer_word(file, 6) as usize + instrs_back != file.len() {
        return false;
    }
    trailer_word(file, 7) as usize == file.len()
}
