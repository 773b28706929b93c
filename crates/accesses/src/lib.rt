// The name of an access, judged by its declaration: what it means, and how long the access is. Refusals 40 to 42.
#![tactic(auto)]

pub mod lengths;
pub mod names;

// What is judged: the key of its least fault, its length (0 if it has a fault), and the token behind it.
#[derive(Clone, Copy)]
pub struct Judged {
    pub key: u32,
    pub bits: u32,
    pub next: usize,
}
