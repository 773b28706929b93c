// The longest run over the token table.
#![tactic(auto)]

pub mod filling;
pub mod mains;
