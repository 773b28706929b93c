// Theorems about the rules alone: see specs/. There is no code here.

#![tactic(auto)]
