// What the programs over the public calls share: the numbers of an answer, and lines of text, appended to what a lent buffer holds: in fixed
// memory, so that each contract says the bytes and how far they reach, and nothing can fail.
#![tactic(auto)]

pub mod answers;
pub mod bytes;
pub mod digits;
pub mod endings;
pub mod refusals;
pub mod said;
