// The ways through the units, and what holds of each of them: definitions and laws only.
#![tactic(auto)]
