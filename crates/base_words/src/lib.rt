// Operations on the bits of numbers: definitions only.
#![tactic(auto)]
