// MAIN and the chains of activations: 50 and 51.
#![tactic(auto)]

pub mod chains;
pub mod mains;
