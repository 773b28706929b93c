// The entries of each word, linked in lent memory: a matching before anything is told, and the first entry of a word that is not yet taken. `begin` walks over
// the list once; a search passes over entries that are taken, each of them once in all.
#![tactic(auto)]

pub mod beginning;
pub mod seeking;
