// What C99 makes of the tree of c_tree: definitions only.
#![tactic(auto)]
