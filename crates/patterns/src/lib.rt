// The items of selectors, patterns and ranges: how one is read from the token table, which values it matches, and whether two have a value in common.
#![tactic(auto)]

pub mod items;
pub mod meets;
pub mod read;
