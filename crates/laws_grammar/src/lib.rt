// Theorems about the grammar and the answers of Check and Run: see specs/. There is no code here.

#![tactic(auto)]
