// What the flat machine tells, against the matching with one pair of numbers for a group: see specs/. There is no code here.

#![tactic(auto)]
