// What the flat machine tells of groups: see specs/. There is no code here.

#![tactic(auto)]
