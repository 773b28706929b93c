// Runs an accepted description from left to right, with a budget of steps.
#![tactic(auto)]

pub mod runs;
pub mod turns;
