// Where control goes behind a step of a run that tells what it passes: to an instruction, into a body, or out of bodies.
#![tactic(auto)]

pub mod ways;
