// Where control goes: each instruction of a body takes into its record where control goes behind it and inside.
#![tactic(auto)]

pub mod actions;
pub mod bodies;
pub mod leaves;
pub mod mains;
