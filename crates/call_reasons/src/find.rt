// The block that an instruction stands in.
ghost use Rattle.std.specs.Prelude.{◌≡◌};
ghost use Rattle.file_records.specs.Trailer.{block_count};
ghost use Rattle.file_blocks.specs.Parse.{Accepted};
ghost use Rattle.call_reasons.specs.Steps.{IsFoundPlace};

use file_blocks::block_at;

// Where an instruction stands.
#[derive(Clone, Copy)]
pub(crate) struct Place {
    // The number of its block.
    pub block: usize,
    // The number of the block's first instruction.
    pub first: usize,
}

// Where instruction k of an accepted file with n blocks stands, if there is one.
pub(crate) fn find_instr(file: &[u8], n: usize, k: u64) -> Option<Place>
    requires { Accepted file.now × (n ≡ block_count file.now) }
    ensures { IsFoundPlace file.now k result }
{
    let mut first = 0;
    for i in 0..n {
        let Some(block) = block_at(file, i) else {
            return None;
        };
        let next = first + block.count as usize;
        if k < next as u64 {
            return Some(Place { block: i, first });
        }
        first = next;
    }
    None
}
