// The code of a description at its token numbers: see specs/. There is no code here.

#![tactic(auto)]
