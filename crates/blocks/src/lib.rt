// A block of an image, on byte slices alone: its head, its payload and its check.
#![tactic(auto)]

pub mod blocks;
pub mod bytes;
