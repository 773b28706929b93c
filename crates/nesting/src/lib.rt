// Where a walk over a body's tokens stands, for the resume profile: flags of what control comes to, the frames of open blocks, and labels.
#![tactic(auto)]

pub mod frames;
pub mod labels;
pub mod nests;
