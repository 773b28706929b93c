// Two descriptions over one table of carriers: what they share, where the second one's words lie in the table, and what is refused.
#![tactic(auto)]

pub mod joining;
pub mod judging;
pub mod lengths;
pub mod meeting;
pub mod shapes;
pub mod turns;
pub mod words;
