// All records of a block, and the end of its code.
ghost use Rattle.std.specs.Prelude.{◌≡◌, ℕ, ◌<◌, List, []};
ghost use Rattle.base_text.specs.Wrote.{Wrote};
ghost use Rattle.c_tree.specs.Stmt.{end};
ghost use Rattle.c_tree.specs.Print.{code_text};
ghost use Rattle.lower_forms.specs.Forms.{Body};
ghost use Rattle.lower_units.specs.Block.{code_from};
ghost use Rattle.emit_instr.specs.Onward.{Onward};
ghost use Rattle.emit_block.specs.Walk.{forms_from, HasBlock, IsMemberBlock};

use crate::instrs::emit_record;
use crate::member::{MemberBlock, is_inside};
use emit_flow::{Exit, emit_closing};
use file_blocks::{instr_addr, key_of};

// The closing transfer, to the key after the block.
fn emit_end(
    out: &mut [u8],
    at: usize,
    file: &[u8],
    work: &[u32],
    m: MemberBlock,
    cycles: u64,
) -> usize
    requires { HasBlock file.now work.now m.member }
    ensures { (ks : List ℕ) (b : Body) (j : ℕ)
        → IsMemberBlock file.now work.now m ks b
        → cycles ≡ (forms_from file.now m.block m.first 0 0).1
        → Onward out.old at (code_from ks b j []) end out.new result }
{
    let block = m.block;
    let next = instr_addr(block.addr, block.thumb, block.count);
    let key = key_of(next, block.thumb);
    let e = Exit {
        src: block.addr,
        key,
        inside: is_inside(file, work, m.member, key),
    };
    emit_closing(out, at, cycles, next, e)
}

// The code of a block after its guard: record after record, until one leaves nothing to write after
// it.
pub(crate) fn emit_records(
    out: &mut [u8],
    at: usize,
    file: &[u8],
    work: &[u32],
    m: MemberBlock,
) -> usize
    requires { HasBlock file.now work.now m.member }
    ensures { (ks : List ℕ) (b : Body)
        → IsMemberBlock file.now work.now m ks b
        → Wrote out.old at (code_text (code_from ks b 0 b.forms)) out.new
        result }
{
    let mut p = at;
    let mut cycles = 0;
    for j in 0..m.block.count {
        let step = emit_record(out, p, file, work, m, cycles, j);
        if step.done {
            return step.at;
        }
        p = step.at;
        cycles = step.cycles;
    }
    emit_end(out, p, file, work, m, cycles)
}
