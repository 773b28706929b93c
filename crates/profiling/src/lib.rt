// The resume profile over the token table.
#![tactic(auto)]

pub mod names;
pub mod rounds;
pub mod steps;
pub mod tasks;
pub mod walks;
