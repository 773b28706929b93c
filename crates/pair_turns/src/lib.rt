// The turns of two accepted descriptions over one table of carriers.
#![tactic(auto)]

pub mod taking;
pub mod turns;
pub mod views;
pub mod words;
