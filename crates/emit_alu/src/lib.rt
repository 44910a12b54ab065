// Writers of the lines that data processing and multiplication are lowered to.
#![tactic(auto)]

mod alu;
mod logical;
mod mul;
mod sum;

pub use alu::{Processing, alu_is_inlined, put_alu};
pub use mul::{LongMultiply, Multiply, mul_is_inlined, put_mul, put_mul_long};
