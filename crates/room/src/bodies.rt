// While bodies are judged: the names around an action, one cell each; from STARTS on the starts of alternatives, STARTS_SIZE for each open DECODE, as many as
// are compared; and from INDEX on the index of the names, a cell for each spelling.
use rules::limits::{DEEPEST, MOST_ALTERNATIVES, MOST_TOKENS};

pub const STARTS: usize = MOST_TOKENS;

pub const STARTS_SIZE: usize = MOST_ALTERNATIVES;

pub const INDEX: usize = STARTS + STARTS_SIZE * DEEPEST;
