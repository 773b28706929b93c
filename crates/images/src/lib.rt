// Images of carrier buffers, on byte slices alone: written, judged, read.
#![tactic(auto)]

pub mod images;
