// The transfer at an instruction, whose parts are told to the matching of a designer's list as they are stored.
#![tactic(auto)]

mod parts;
pub mod transfers;
