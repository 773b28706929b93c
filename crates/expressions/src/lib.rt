// Expressions: how long they are, and whether they are sound. Refusals 40 to 43.
#![tactic(auto)]

pub mod judge;
