// What acceptance gives, and demand 3 for every accepted text: see specs/. There is no code here.

#![tactic(auto)]
