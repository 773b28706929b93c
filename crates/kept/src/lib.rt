// Carriers of an accepted description kept as an image, and an image taken as its carriers.
#![tactic(auto)]

pub mod loads;
pub mod stores;
