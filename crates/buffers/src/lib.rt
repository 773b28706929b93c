// The bytes of carriers and images as numbers and words: laws alone, see specs/. There is no code here.

#![tactic(auto)]
