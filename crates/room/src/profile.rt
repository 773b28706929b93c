// While paths are walked: the flags, of which there are as many as stand before FRAMES; from FRAMES on six cells for each open BEGIN; from LABELS on two for
// each label around an action; and from HINTS on the hints, a cell for each spelling.
use rules::limits::MOST_TOKENS;

pub const FRAMES: usize = 64;

pub const LABELS: usize = 256;

pub const HINTS: usize = LABELS + 2 * MOST_TOKENS;
