// What a body reads and writes, and those below it: gathered once, by recursion down activations.
#![tactic(auto)]

pub mod gathering;
pub mod memory;
pub mod steps;
pub mod touches;
