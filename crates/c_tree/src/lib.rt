// The C that emit.rs prints, as a tree: definitions only.
#![tactic(auto)]
