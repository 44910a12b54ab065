// Block records: the fields of the record at an offset, and the rules that hold of it.
ghost use Rattle.std.specs.Prelude.{◌≡◌, ◌+◌, ◌≤◌, ◌<◌, ◌^◌, length};
ghost use Rattle.file_records.specs.BlockRecord.{addr_at, flags_at, count_at, code_offset_at};
ghost use Rattle.file_records.specs.BlockRecord.{thumb_at, present_at, length_of, length_at};
ghost use Rattle.file_records.specs.BlockRecord.{key_plus, key_at, aligned as specAligned};
ghost use Rattle.file_records.specs.BlockRecord.{code_right, block_right};

use crate::bytes::word;
use crate::trailer::trailer_word;

// The address of the block's first instruction.
pub fn addr(file: &[u8], at: usize) -> u32
    requires { at + 16 ≤ length file.now }
    ensures { result ≡ addr_at file.now at }
{
    word(file, at)
}

// The flags, of which bits 0 and 1 have a meaning.
fn flags(file: &[u8], at: usize) -> u32
    requires { at + 16 ≤ length file.now }
    ensures { result ≡ flags_at file.now at }
{
    word(file, at + 4)
}

// How many instructions the block has.
pub fn count(file: &[u8], at: usize) -> u32
    requires { at + 16 ≤ length file.now }
    ensures { result ≡ count_at file.now at }
{
    word(file, at + 8)
}

// The offset of the block's code bytes from the file's start.
pub fn offset(file: &[u8], at: usize) -> u32
    requires { at + 16 ≤ length file.now }
    ensures { result ≡ code_offset_at file.now at }
{
    word(file, at + 12)
}

// Flag bit 0: a block of Thumb instructions.
pub fn thumb(file: &[u8], at: usize) -> bool
    requires { at + 16 ≤ length file.now }
    ensures { result ≡ thumb_at file.now at }
{
    flags(file, at) % 2 == 1
}

// Flag bit 1: the block's code bytes are present.
pub fn present(file: &[u8], at: usize) -> bool
    requires { at + 16 ≤ length file.now }
    ensures { result ≡ present_at file.now at }
{
    flags(file, at) / 2 % 2 == 1
}

// What n instructions take in bytes. The bound is what sums with it need.
pub fn instrs_length(n: u32, is_thumb: bool) -> usize
    ensures length { result ≡ length_of n is_thumb }
    ensures small { result < 2 ^ 35 }
{
    let wide = n as usize;
    if is_thumb { wide * 2 } else { wide * 4 }
}

// The block's length in bytes.
fn byte_length(file: &[u8], at: usize) -> usize
    requires { at + 16 ≤ length file.now }
    ensures length { result ≡ length_at file.now at }
    ensures small { result < 2 ^ 35 }
{
    instrs_length(count(file, at), thumb(file, at))
}

// The key of a block: its address plus the Thumb bit. The bound is what the check of the next key
// needs.
pub fn key_plus(address: u32, is_thumb: bool) -> u64
    ensures key { result ≡ key_plus address is_thumb }
    ensures small { result ≤ 2 ^ 32 }
{
    let wide = address as u64;
    if is_thumb { wide + 1 } else { wide }
}

// The key of the block.
pub fn key(file: &[u8], at: usize) -> u64
    requires { at + 16 ≤ length file.now }
    ensures key { result ≡ key_at file.now at }
    ensures small { result ≤ 2 ^ 32 }
{
    key_plus(addr(file, at), thumb(file, at))
}

// Whether the address is even in Thumb, or a multiple of 4 in ARM.
fn aligned(file: &[u8], at: usize) -> bool
    requires { at + 16 ≤ length file.now }
    ensures { result ≡ specAligned file.now at }
{
    let address = addr(file, at);
    if thumb(file, at) {
        address % 2 == 0
    } else {
        address % 4 == 0
    }
}

// Whether present code bytes end inside the code area, or the offset of absent ones is 0.
fn code_right(file: &[u8], at: usize) -> bool
    requires { at + 16 ≤ length file.now }
    ensures { result ≡ code_right file.now at }
{
    let start = offset(file, at) as usize;
    if present(file, at) {
        let end = start + byte_length(file, at);
        end <= trailer_word(file, 6) as usize
    } else {
        start == 0
    }
}

// The rules of a block record, the order of keys apart.
pub fn block_right(file: &[u8], at: usize) -> bool
    requires { at + 16 ≤ length file.now }
    ensures { result ≡ block_right file.now at }
{
    let n = count(file, at);
    if 4 <= flags(file, at) {
        return false;
    }
    if n < 1 {
        return false;
    }
    if 65535 < n {
        return false;
    }
    if !aligned(file, at) {
        return false;
    }
    if 4294967296 < addr(file, at) as usize + byte_length(file, at) {
        return false;
    }
    code_right(file, at)
}
