// A designer's list of stores as people write it: the entries that a file has.
#![tactic(auto)]

pub mod files;
