// What is judged of an action without going into it: labels, what stands in front of an action, and actions with nothing inside.
#![tactic(auto)]

pub mod labels;
pub mod prefixes;
pub mod simple;

// What a walk over an action found: the key of its least fault, and the token behind it.
#[derive(Clone, Copy)]
pub struct Walked {
    pub key: u32,
    pub next: usize,
}
