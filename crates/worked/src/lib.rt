// Texts worked out by the definitions of `rules`: see specs/. There is no code here.

#![tactic(auto)]
