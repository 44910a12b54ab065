// The opening of a file by a call, before it looks at the blocks.
ghost use Rattle.std.specs.Prelude.{◌≡◌, ◌≤◌, ℕ, List, Ok, IfOk, IfErr};
ghost use Rattle.std.proofs.Math.Option.{some};
ghost use Rattle.file_blocks.specs.Checked.{checked};
ghost use Rattle.file_blocks.specs.Parse.{parse, blocks_of, instr_total};
ghost use Rattle.call_frame.specs.Open.{opening, IsOpen};
ghost use Rattle.call_frame.specs.Refusal.{refusal_of, early_of};

use crate::refusal::Refusal;
use file_blocks::{Counts, check};

// What follows the check of a file with these counts: the early refusal, or 8. It stands alone, so
// that the loops of the check hold nothing of it.
#[inline(never)]
fn admit(
    counts: Counts,
    early: &Option<Refusal>,
    per_block: usize,
    lent: usize,
) -> Result<Counts, Refusal>
    requires { per_block ≤ 4 }
    ensures open { (f : List ℕ) → Ok counts ≡ checked f
        → IfOk result (λ c. IsOpen f (early_of early.now) per_block lent c.blocks) }
    ensures counted { (f : List ℕ) → Ok counts ≡ checked f
        → IfOk result (λ c. c.instructions ≡ instr_total (blocks_of f)) }
    ensures refused { (f : List ℕ) → Ok counts ≡ checked f
        → IfErr result (λ r. opening (early_of early.now) per_block lent (parse f)
        ≡ some (refusal_of r)) }
{
    if let Some(refusal) = *early {
        return Err(refusal);
    }
    if lent < per_block * counts.blocks as usize {
        return Err(Refusal::FewNumbers);
    }
    Ok(counts)
}

// Opens a file for a call that needs so many work numbers for each block, and was lent `lent`: how
// many blocks and instructions it has, or what refuses it: 1 to 7, the early refusal, or 8.
pub fn open_file(
    file: &[u8],
    early: Option<Refusal>,
    per_block: usize,
    lent: usize,
) -> Result<Counts, Refusal>
    requires { per_block ≤ 4 }
    ensures open { IfOk result (λ c. IsOpen file.now (early_of early) per_block lent c.blocks) }
    ensures counted { IfOk result (λ c. c.instructions ≡ instr_total (blocks_of file.now)) }
    ensures refused { IfErr result (λ r. opening (early_of early) per_block lent (parse file.now)
        ≡ some (refusal_of r)) }
{
    let counts = check(file)?;
    admit(counts, &early, per_block, lent)
}
