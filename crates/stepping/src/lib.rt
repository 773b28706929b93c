// A step of a run: what it does to the carriers, and where control goes then.
#![tactic(auto)]

pub mod choice;
pub mod steps;
