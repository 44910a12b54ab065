// The code of a block: what stands between its head, or label, and its close.
ghost use Rattle.std.specs.Prelude.{◌≡◌, ℕ, List, map, if◌then◌else◌, slice_index_or};
ghost use Rattle.file_blocks.specs.Read.{code_bytes};
ghost use Rattle.file_records.specs.BlockRecord.{length_of};
ghost use Rattle.base_hash.specs.Fnv.{hash_multiplier, fnv64};
ghost use Rattle.file_blocks.specs.Parse.{blocks_of};
ghost use Rattle.base_text.specs.Wrote.{Wrote};
ghost use Rattle.c_tree.specs.Print.{code_text};
ghost use Rattle.lower_forms.specs.Block.{body_of};
ghost use Rattle.lower_units.specs.Block.{block_code};
ghost use Rattle.lower_units.specs.Units.{default_body};
ghost use Rattle.lower_units.specs.Measured.{hashed_if};
ghost use Rattle.emit_block.specs.Walk.{IsMember, HasBlock};

use crate::member::{Member, MemberBlock};
use crate::walk::emit_records;
use base_hash::hash;
use emit_flow::{emit_defer, emit_guard};
use file_blocks::{BlockRecord, block_at, code_bytes, is_guarded};
use file_records::block_record::instrs_length;
use plan_members::first_of;

// The multiplier of the guards' hash.
const MULTIPLIER: u64 = 4294967731;

// The length of a block in bytes.
fn length_of(block: BlockRecord) -> u64
    ensures { result ≡ length_of block.count block.thumb }
{
    instrs_length(block.count, block.thumb) as u64
}

// The hash of a block's code bytes, or 0 where the text is only measured.
fn guard_hash(file: &[u8], block: BlockRecord, hashing: bool) -> u64
    ensures { result ≡ (if hashing then fnv64 hash_multiplier (code_bytes file.now block) else 0) }
{
    if hashing {
        hash(code_bytes(file, block), MULTIPLIER)
    } else {
        0
    }
}

// A block: after its guard, or the interpreter in its place where its code bytes are absent, or
// bare in BIOS and ROM. Without hashing its length is right, and its hash is 0.
pub fn emit_block(
    out: &mut [u8],
    at: usize,
    file: &[u8],
    work: &[u32],
    m: Member,
    hashing: bool,
) -> usize
    requires { HasBlock file.now work.now m }
    ensures { (ks : List ℕ) → IsMember file.now work.now m ks
        → Wrote out.old at
        (code_text
        (block_code ks
        (hashed_if hashing
        (slice_index_or (map (body_of hash_multiplier) (blocks_of file.now)) m.index
        default_body)))) out.new result }
{
    let Some(block) = block_at(file, m.index) else {
        return at;
    };
    let b = MemberBlock {
        member: m,
        block,
        first: first_of(work, m.rows.blocks, m.index),
    };
    if !is_guarded(block.addr) {
        return emit_records(out, at, file, work, b);
    }
    if !block.present {
        return emit_defer(out, at, block.addr);
    }
    let h = guard_hash(file, block, hashing);
    let p = emit_guard(out, at, block.addr, length_of(block), h);
    emit_records(out, p, file, work, b)
}
