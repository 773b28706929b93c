// The race that 53 stands for: two members, and what they share.
#![tactic(auto)]

pub mod groups;
pub mod members;
pub mod telling;
