// Executions of whole functions of the units: that each is a way, and what the blocks of a group
// carry out on it. Definitions and laws only.
#![tactic(auto)]
