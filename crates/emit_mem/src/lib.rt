// The text of the instructions that touch memory: Mem, BlockMem and the pop of PC. Each printer
// writes at index `at` of a buffer, and answers the index after.
#![tactic(auto)]

mod access;
mod block_mem;
mod inlined;
mod mem;
mod pop;
mod registers;
mod transfers;

pub use block_mem::{BlockTransfer, block_mem_is_inlined, put_block_mem};
pub use inlined::mem_is_inlined;
pub use mem::{Transfer, put_mem};
pub use pop::{is_pop, put_pop};
