// One token: words, constants, marks.
#![tactic(auto)]

pub mod constants;
pub mod lexemes;
pub mod marks;
pub mod words;
