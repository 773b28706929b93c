// Counts of steps, cut at a number that stands for no bound, and the brackets that are open: what each kind of token does to them.
#![tactic(auto)]

pub mod counts;
pub mod frames;
pub mod kinds;
