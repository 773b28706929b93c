// The selectors of alternatives: which go past the tested length, and which have a value in common.
#![tactic(auto)]

pub mod alternatives;
pub mod lists;
