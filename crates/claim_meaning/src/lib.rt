// What the lowered text means: that C99 reads it as the manual has its instructions. Definitions
// and laws only.
#![tactic(auto)]
