// The list of turns: 81.
ghost use Rattle.pair_tables.specs.Turns.{FirstBad};

// The last side.
const LAST_SIDE: u8 = 1;

// The offset of the first turn that names no side, or the number of turns.
pub fn first_bad_turn(turns: &[u8]) -> usize
    ensures { FirstBad turns.now result }
{
    for (i, &side) in turns.iter().enumerate() {
        if LAST_SIDE < side {
            return i;
        }
    }
    turns.len()
}
