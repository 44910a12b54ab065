// What is claimed of the units of a file, all of it in one list: definitions and laws only.
#![tactic(auto)]
