// The bodies of a description: labels, targets of jumps, alternatives, and all refusals of the 40s.
#![tactic(auto)]

pub mod all;
