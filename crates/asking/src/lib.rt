// Check and Run, each with its answer, and the memory that they are lent.
#![tactic(auto)]

ghost use Rattle.std.specs.Prelude.{◌≤◌};

use lines::answers::{Answer, answer_of};
use rules::limits::MOST_WORDS;

pub fn check(text: &[u8], a: &mut [u8], b: &mut [u8], c: &mut [u8]) -> Answer {
    let mut answer = [0u8; 32];
    let number = checking::check(text, a, b, c, &mut answer);
    answer_of(number, &answer)
}

pub fn run(
    text: &[u8],
    carriers: &mut [u8],
    budget: u32,
    a: &mut [u8],
    b: &mut [u8],
    c: &mut [u8],
) -> Answer {
    let mut answer = [0u8; 32];
    let number = running::run(text, carriers, budget, a, b, c, &mut answer);
    answer_of(number, &answer)
}

// The work memory of a program: the three buffers that it lends.
#[derive(Drop)]
pub struct Work {
    pub a: [u8; 65536],
    pub b: [u8; 65536],
    pub c: [u8; 65536],
}

// How many bytes so many words take, of those that fit.
pub fn carrier_bytes(words: u64) -> usize
    ensures { result ≤ 32768 }
{
    8 * words.min(MOST_WORDS as u64) as usize
}
