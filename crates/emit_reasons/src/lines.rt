// The lines of a block's instructions from one on, as many as fit.
ghost use Rattle.std.specs.Prelude.{List, ◌++◌, ℕ, ◌+◌, ◌≤◌, length, drop};
ghost use Rattle.file_blocks.specs.Read.{instrs_of};
ghost use Rattle.lower_reasons.specs.Lines.{Line, lines_of};
ghost use Rattle.lower_reasons.specs.Said.{said_each};
ghost use Rattle.emit_reasons.specs.Steps.{HasBlock, said_in_record, Putting, Progressed};

use crate::said::{drops_rest, said_of};
use crate::walk::{has_code, pairs_at, reaches};
use emit_sentences::{line_length, put_line};
use file_blocks::{BlockRecord, instr_of, region_of};

// How far the lines are written.
#[derive(Clone, Copy)]
pub struct Progress {
    // The first instruction whose line was not written, or the one after the last.
    pub next: usize,
    // The bytes written.
    pub length: usize,
}

// The lines from the instruction with an index on, to which the walk comes.
fn put_rest(
    text: &mut [u8],
    at: usize,
    file: &[u8],
    block: BlockRecord,
    first: usize,
    region: u32,
    index: u32,
) -> Progress
    requires { HasBlock file.now block first × (index ≤ block.count) × (at ≤ length text.old) }
    ensures within { result.length ≤ length text.old }
    ensures lines { (text₀ : List ℕ) (all after : List Line)
        → Putting text₀ all
        (lines_of (first + index)
        (said_each region (drop index (instrs_of file.now block first)))
        ++ after) text.old at
        → Progressed text₀ all after (first + block.count) text.new result }
{
    let end = first + block.count as usize;
    let mut length = at;
    for j in index..block.count {
        let Some(x) = instr_of(file, block, first, j) else {
            return Progress { next: end, length };
        };
        let i = x.instr;
        if pairs_at(file, block, first, j, i) {
            return Progress { next: end, length };
        }
        let said = said_of(region, i);
        let size = line_length(said);
        if text.len() - length < size {
            let next = first + j as usize;
            return Progress { next, length };
        }
        put_line(text, length, said);
        length += size;
        if drops_rest(region, i) {
            return Progress { next: end, length };
        }
    }
    Progress { next: end, length }
}

// The lines of a block from the instruction with an index on, after `at` bytes of lines: as many as
// fit.
pub fn put_block(
    text: &mut [u8],
    at: usize,
    file: &[u8],
    block: BlockRecord,
    first: usize,
    index: u32,
) -> Progress
    requires { HasBlock file.now block first × (index ≤ block.count) × (at ≤ length text.old) }
    ensures within { result.length ≤ length text.old }
    ensures lines { (text₀ : List ℕ) (all after : List Line)
        → Putting text₀ all
        (lines_of (first + index) (drop index (said_in_record file.now block first))
        ++ after) text.old at
        → Progressed text₀ all after (first + block.count) text.new result }
{
    let end = first + block.count as usize;
    if !has_code(block) {
        return Progress {
            next: end,
            length: at,
        };
    }
    let region = region_of(block.addr);
    if !reaches(file, block, first, region, index) {
        return Progress {
            next: end,
            length: at,
        };
    }
    put_rest(text, at, file, block, first, region, index)
}
