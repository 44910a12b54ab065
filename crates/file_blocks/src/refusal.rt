// The check of a whole file: one pass over the blocks and one over the instructions.
ghost use Rattle.std.specs.Prelude.{◌≡◌, true, [], ◌∷◌, ◌++◌};
ghost use Rattle.file_records.specs.Trailer.{block_count, instr_count, trailer_right};
ghost use Rattle.file_instrs.specs.Limits.{limits_to};
ghost use Rattle.file_blocks.specs.Refusal.{block_rules, instr_rules, first_broken};
ghost use Rattle.file_blocks.specs.Checked.{passed, checked};

use crate::rule::Rule;
use file_instrs::instr_record::{all_limits, instr_right};
use file_records::block_record::{block_right, count, key};
use file_records::trailer::{section_start, trailer_right, trailer_word, within_limits};

// How many bytes a trailer has.
const TRAILER: usize = 32;

// How many blocks and instructions a file has.
#[derive(Clone, Copy)]
pub struct Counts {
    pub blocks: u32,
    pub instructions: u32,
}

// Refusals 4 to 6. `least` is the least key that is above the one before.
fn check_blocks(file: &[u8]) -> Result<(), Rule>
    requires { trailer_right file.now ≡ true }
    ensures { result ≡ passed
        (first_broken file.now
        (block_rules (block_count file.now) 0 ++ (Rule.Sum ∷ []))) }
{
    let start = section_start(file, 1);
    let blocks = trailer_word(file, 2) as usize;
    let mut least: u64 = 0;
    let mut sum: u64 = 0;
    for i in 0..blocks {
        let at = start + 16 * i;
        if !block_right(file, at) {
            return Err(Rule::Block(i as u64));
        }
        let k = key(file, at);
        if k < least {
            return Err(Rule::Order(i as u64));
        }
        least = k + 1;
        sum += count(file, at) as u64;
    }
    if sum == trailer_word(file, 4) as u64 {
        Ok(())
    } else {
        Err(Rule::Sum)
    }
}

// Refusal 7, by the limits of all kinds and forms.
fn check_records(file: &[u8], limits: &[u8]) -> Result<(), Rule>
    requires { (trailer_right file.now ≡ true) × (limits.now ≡ limits_to 30) }
    ensures { result ≡ passed (first_broken file.now (instr_rules (instr_count file.now) 0)) }
{
    let start = section_start(file, 3);
    let instrs = trailer_word(file, 4) as usize;
    for i in 0..instrs {
        if !instr_right(file, start + 16 * i, limits) {
            return Err(Rule::Instr(i as u64));
        }
    }
    Ok(())
}

// Refusal 7.
fn check_instrs(file: &[u8]) -> Result<(), Rule>
    requires { trailer_right file.now ≡ true }
    ensures { result ≡ passed (first_broken file.now (instr_rules (instr_count file.now) 0)) }
{
    let limits = all_limits();
    check_records(file, &limits[..])
}

// The first rule that a file breaks, or how many blocks and instructions it has.
pub fn check(file: &[u8]) -> Result<Counts, Rule>
    ensures { result ≡ checked file.now }
{
    if file.len() < TRAILER {
        return Err(Rule::Short);
    }
    if !within_limits(file) {
        return Err(Rule::Limits);
    }
    if !trailer_right(file) {
        return Err(Rule::Trailer);
    }
    check_blocks(file)?;
    check_instrs(file)?;
    Ok(Counts {
        blocks: trailer_word(file, 2),
        instructions: trailer_word(file, 4),
    })
}
