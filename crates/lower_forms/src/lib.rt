// What emit_block makes of a block's instructions, as forms of text: definitions only.
#![tactic(auto)]
