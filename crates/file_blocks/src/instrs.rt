// The instructions of a block: the address of each, its record, region and keys.
ghost use Rattle.std.specs.Prelude.{◌≡◌, ◌+◌, ◌*◌, ◌%◌, ◌^◌};
ghost use Rattle.armv4t.specs.Instr.{size_of};
ghost use Rattle.file_blocks.specs.Address.{region, outside_rom_bios, key_of};
ghost use Rattle.file_blocks.specs.Address.{fall_through};
ghost use Rattle.file_blocks.specs.Read.{read_instr};

use crate::read::{BlockRecord, instr_at};
use armv4t::{Instr, set_bit0};
use file_instrs::decode::TimedInstr;

// The region of an address: its page modulo 16.
pub fn region_of(addr: u32) -> u32
    ensures { result ≡ region addr }
{
    addr / 16777216 % 16
}

// Whether a block's code has a guard before it: its code bytes can change, outside BIOS and ROM.
pub fn is_guarded(addr: u32) -> bool
    ensures { result ≡ outside_rom_bios addr }
{
    let region = region_of(addr);
    if region == 8 {
        return false;
    }
    region != 0
}

// An address with the block's Thumb bit.
pub fn key_of(addr: u32, thumb: bool) -> u32
    ensures { result ≡ key_of addr thumb }
{
    if thumb { set_bit0(addr) } else { addr }
}

// The key after an instruction.
pub fn fall_through(thumb: bool, instr: Instr) -> u32
    ensures { result ≡ fall_through thumb instr }
{
    key_of(std::num::wrapping_add_u32(instr.addr, instr.size()), thumb)
}

// The address of instruction j of a block at an address.
pub fn instr_addr(addr: u32, thumb: bool, j: u32) -> u32
    ensures { result ≡ (addr + size_of thumb * j) % 2 ^ 32 }
{
    let start = addr as u64;
    let n = j as u64;
    if thumb {
        ((start + 2 * n) % 4294967296) as u32
    } else {
        ((start + 4 * n) % 4294967296) as u32
    }
}

// Instruction j of a block whose instructions are those from record `first` on. In an accepted file
// nothing wraps.
pub fn instr_of(file: &[u8], block: BlockRecord, first: usize, j: u32) -> Option<TimedInstr>
    ensures { result ≡ read_instr file.now block first j }
{
    let at = std::num::wrapping_add_usize(first, j as usize);
    instr_at(
        file,
        at,
        instr_addr(block.addr, block.thumb, j),
        block.thumb,
    )
}
