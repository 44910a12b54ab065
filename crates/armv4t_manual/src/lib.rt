// The ARM Architecture Reference Manual's account of the instructions, for ARMv4T: definitions
// only.
#![tactic(auto)]
