// What is shown of a text: a line with a mark below it, a name, and where they stand.
#![tactic(auto)]

pub mod excerpts;
pub mod names;
pub mod places;
