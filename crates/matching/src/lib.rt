// The matching of a designer's list of stores with a run, in lent memory: the answer, which walks over the list once.
#![tactic(auto)]

pub mod answering;
pub mod positions;
