// A designer's list of stores, as it is lent: its entries.
#![tactic(auto)]

pub mod entries;
