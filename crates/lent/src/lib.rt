// What every public call does with the memory that it is lent.
#![tactic(auto)]

pub mod answers;
pub mod memory;
pub mod settling;
