// Why a text is refused: what stands behind its number.
#![tactic(auto)]

pub mod activations;
pub mod races;
pub mod rereading;
pub mod verdicts;
