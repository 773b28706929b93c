// Document 01 as definitions: see specs/. The code has its limits, the numbers of its kinds of tokens and what a refusal says.
#![tactic(auto)]

pub mod kinds;
pub mod limits;
pub mod refusals;
