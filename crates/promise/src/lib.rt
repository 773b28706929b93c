// What the runner needs of an accepted text: see specs/. There is no code here.

#![tactic(auto)]
