// Theorems about steps and their orders, and the flat machine: see specs/. There is no code here.

#![tactic(auto)]
