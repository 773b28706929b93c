// The groups of a description, in text order.
ghost use Rattle.std.specs.Prelude.{◌*◌, ◌<◌, ◌≤◌, length};
ghost use Rattle.reading.specs.Reading.{Reading};
ghost use Rattle.gathering.specs.Filling.{Complete};
ghost use Rattle.racing.specs.Found.{InTokens};

use crate::members::{Pair, race_in};
use records::fields::kind_at;
use whole::walks::opens;

// The name of a description, its `:=` and its BEGIN.
const BEFORE_DECLARATIONS: usize = 3;

// The race of the member at the place.
pub fn race(
    records: &[u8],
    decls: &[u8],
    memo: &[u8],
    m: usize,
    n: usize,
    place: usize,
) -> Option<Pair>
    requires { Reading records.now decls.now m n × ((72 * m ≤ length memo.now) × Complete records.now decls.now memo.now m n) }
    ensures { InTokens records.now decls.now m n 3 place result }
{
    for i in BEFORE_DECLARATIONS..n {
        if opens(kind_at(records, i)) {
            let found = race_in(records, decls, memo, m, n, i + 1, place);
            if found.is_some() {
                return found;
            }
        }
    }
    None
}
