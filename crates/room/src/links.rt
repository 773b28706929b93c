// While links are written: the labels around an action, three cells each, and from HINTS on the hints, a cell for each spelling.
pub const HINTS: usize = 12288;
