// The class of a byte, runs of bytes by their classes, and the case of letters.
#![tactic(auto)]

pub mod classes;
pub mod letters;
