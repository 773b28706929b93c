// The lines of a description's words, in carrier order.
#![tactic(auto)]

pub mod listing;
pub mod names;
pub mod words;
