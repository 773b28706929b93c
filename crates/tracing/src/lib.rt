// Runs an accepted description as `runner` does, and tells the matching of a designer's list what is stored and what control passes.
#![tactic(auto)]

mod acts;
pub mod runs;
mod turns;
