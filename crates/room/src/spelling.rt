// While words are looked up: the heads of the trees, and from HEADS on the two children of each token.
pub const HEADS: usize = 256;
