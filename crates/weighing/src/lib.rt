// Judged things in two numbers, and what operators make of them. Refusal 43.
#![tactic(auto)]

pub mod operators;

// The key of a judged thing, and its length.
#[derive(Clone, Copy)]
pub struct Weight {
    pub key: u32,
    pub bits: u32,
}
