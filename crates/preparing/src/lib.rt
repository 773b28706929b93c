// A run of an accepted description: where its parts stand and control goes, its carriers, and how it ends.
#![tactic(auto)]

pub mod endings;
pub mod runs;
