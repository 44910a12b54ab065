// What is claimed of the sentences: definitions and their proofs only.
#![tactic(auto)]
