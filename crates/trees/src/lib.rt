// The tokens of expressions and selectors, as those who read them one by one meet them: theorems, see specs/. There is no code here.

#![tactic(auto)]
