// The names that a caller lends: which declaration of the text each one means.
#![tactic(auto)]

pub mod names;
