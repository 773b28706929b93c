// While the whole is judged: what is known of each declaration, and from the byte LABELS_BYTE on a part for labels, scopes and hints, whose cells are counted from
// its own start.
pub const LABELS_BYTE: usize = 18432;

// The scope of the outermost open block, before which the others stand, two cells each; what is behind it, where the hints begin; and how many hints there are.
pub const FIRST_SCOPE: usize = 16382;

pub const SCOPES_END: usize = FIRST_SCOPE + 2;

pub const HINT_COUNT: usize = 7168;
