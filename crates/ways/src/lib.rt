// Where control goes: ends of actions, separators, and what stands in front of an action.
#![tactic(auto)]

pub mod labels;
pub mod prefixes;
pub mod scans;
pub mod separators;
