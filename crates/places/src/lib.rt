// Where the bits of accesses lie: each name that stands for an access takes the place of its bits into its value cell.
#![tactic(auto)]

pub mod bases;
pub mod counting;
pub mod placing;
pub mod reading;
pub mod spans;
