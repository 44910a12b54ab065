// Which of some pieces fit what is lent: a definition and its laws only.
#![tactic(auto)]
