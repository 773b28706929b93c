// Theorems of the longest run: see specs/. There is no code here.

#![tactic(auto)]
