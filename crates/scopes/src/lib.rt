// Open blocks and the labels around a token, on stacks in lent bytes.
#![tactic(auto)]

pub mod hints;
pub mod labels;
pub mod scopes;
