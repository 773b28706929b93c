// Working out an expression: accesses, and operators that wait.
#![tactic(auto)]

pub mod accesses;
pub mod expressions;
pub mod operators;
