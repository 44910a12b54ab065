// Instruction records: the rule of refusal 7, and the instruction of a record.
#![tactic(auto)]

pub mod decode;
pub mod instr_record;
mod kind;
mod record;
