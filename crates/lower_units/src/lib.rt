// From the forms of text to the C tree of blocks, groups and units: definitions only.
#![tactic(auto)]
