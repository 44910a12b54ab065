// The functions of a group: emit_group, or emit_block's function where it has one member.
#![tactic(auto)]

mod groups;

pub use groups::emit_group;
