// The record of a token and its value: the cells, how they are read and written, and the words of names.
#![tactic(auto)]

pub mod fields;
pub mod words;
