// The third buffer, which one pass after another has to itself: where its parts begin, a file for each pass that divides it. Offsets and counts are in cells
// of two bytes, unless they say bytes.
#![tactic(auto)]

pub mod bodies;
pub mod links;
pub mod profile;
pub mod spelling;
pub mod trace;
pub mod whole;
