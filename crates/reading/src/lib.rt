// Reading a body's tokens, action by action: kinds, names, activations, and sets of carriers as bits.
#![tactic(auto)]

pub mod bits;
pub mod bodies;
pub mod calls;
pub mod kinds;
pub mod names;
