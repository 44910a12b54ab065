// The walk over a block's instructions to the one that is asked for.
ghost use Rattle.std.specs.Prelude.{◌≡◌, not, ◌||◌, suc, ◌≤◌, ◌<◌, drop, get_or};
ghost use Rattle.std.proofs.Math.Option.{none};
ghost use Rattle.file_blocks.specs.Address.{outside_rom_bios};
ghost use Rattle.file_blocks.specs.Read.{instrs_of};
ghost use Rattle.lower_reasons.specs.Said.{pairs, drops_rest};
ghost use Rattle.emit_sentences.specs.Steps.{said_by};
ghost use Rattle.emit_reasons.specs.Steps.{HasBlock, reached, said_first};
ghost use Rattle.emit_reasons.specs.Steps.{said_in_record};

use crate::said::{drops_rest, said_of};
use armv4t::Instr;
use emit_sentences::Sentence;
use file_blocks::{BlockRecord, instr_of, is_guarded, next_of, region_of};

// Whether a block's text has the code of its records.
pub(crate) fn has_code(block: BlockRecord) -> bool
    ensures { result ≡ (not (outside_rom_bios block.addr) || block.present) }
{
    !is_guarded(block.addr) || block.present
}

// Whether instruction j of a block makes a pair with the one after it.
pub(crate) fn pairs_at(file: &[u8], block: BlockRecord, first: usize, j: u32, x: Instr) -> bool
    requires { HasBlock file.now block first × (j < block.count) }
    ensures { result ≡ pairs x (drop (suc j) (instrs_of file.now block first)) }
{
    next_of(file, block, first, j, x).is_some()
}

// Whether the walk ends with instruction j of a block: it makes a pair, or drops the rest.
fn ends_at(file: &[u8], block: BlockRecord, first: usize, region: u32, j: u32, x: Instr) -> bool
    requires { HasBlock file.now block first × (j < block.count) }
    ensures { result ≡ (pairs x (drop (suc j) (instrs_of file.now block first))
        || drops_rest region x) }
{
    pairs_at(file, block, first, j, x) || drops_rest(region, x)
}

// Whether the walk comes to the instruction with an index: it does not end with one before it.
pub(crate) fn reaches(
    file: &[u8],
    block: BlockRecord,
    first: usize,
    region: u32,
    index: u32,
) -> bool
    requires { HasBlock file.now block first × (index ≤ block.count) }
    ensures { result ≡ reached region (instrs_of file.now block first) index }
{
    for j in 0..index {
        let Some(x) = instr_of(file, block, first, j) else {
            return false;
        };
        if ends_at(file, block, first, region, j, x.instr) {
            return false;
        }
    }
    true
}

// What is said of an instruction of a block that the walk comes to.
fn said_here(
    file: &[u8],
    block: BlockRecord,
    first: usize,
    region: u32,
    index: u32,
) -> Option<Sentence>
    requires { HasBlock file.now block first × (index < block.count) }
    ensures { said_by result
        ≡ said_first region (drop index (instrs_of file.now block first)) }
{
    let Some(x) = instr_of(file, block, first, index) else {
        return None;
    };
    let i = x.instr;
    if pairs_at(file, block, first, index, i) {
        return None;
    }
    said_of(region, i)
}

// What is said of the instruction with an index of a block, by the block's record and the number of
// its first instruction.
pub fn said_at(file: &[u8], block: BlockRecord, first: usize, index: u32) -> Option<Sentence>
    requires { HasBlock file.now block first × (index < block.count) }
    ensures { said_by result ≡ get_or (said_in_record file.now block first) index none }
{
    if !has_code(block) {
        return None;
    }
    let region = region_of(block.addr);
    if !reaches(file, block, first, region, index) {
        return None;
    }
    said_here(file, block, first, region, index)
}
