// A walk over the tokens of a body that counts its steps, with a table of the counts of the bodies that it activates.
#![tactic(auto)]

pub mod names;
mod steps;
pub mod walks;
