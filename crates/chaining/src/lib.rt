// The chain of activations that 51 stands for.
#![tactic(auto)]

pub mod firsts;
pub mod walks;
