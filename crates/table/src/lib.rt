// The token table as the reader sees it: declarations, what names mean, operators, and walks over tokens.
#![tactic(auto)]

pub mod meanings;
pub mod operators;
pub mod scans;
pub mod views;
