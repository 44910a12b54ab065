// Lists, options and Boolean values: definitions and laws only.
#![tactic(auto)]
