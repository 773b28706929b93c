// The members of a group, one after the other.
ghost use Rattle.std.specs.Prelude.{◌*◌, ◌≤◌, length};
ghost use Rattle.reading.specs.Reading.{Reading};
ghost use Rattle.gathering.specs.Filling.{Complete};
ghost use Rattle.racing.specs.Found.{Leads, Chooses, RacesAt, InGroup};

use gathering::touches::touched;
use reading::kinds::{end_of, kind_of};
use rules::kinds::SEMI;
use whole::groups::{place_of, races};

// Two members by their tokens.
#[derive(Clone, Copy)]
pub struct Pair {
    pub earlier: usize,
    pub later: usize,
}

// The earliest member from the token from on that races with the one at later, or later.
fn earliest(
    records: &[u8],
    decls: &[u8],
    memo: &[u8],
    m: usize,
    n: usize,
    from: usize,
    later: usize,
) -> usize
    requires { Leads records.now decls.now m n from later × ((72 * m ≤ length memo.now) × Complete records.now decls.now memo.now m n) }
    ensures { Chooses records.now decls.now m n from later result }
{
    let own = touched(records, decls, memo, m, n, later);
    let mut i = from;
    while i < later {
        let at = i;
        if races(touched(records, decls, memo, m, n, at), own) {
            return at;
        }
        i = end_of(records, n, at) + 1;
    }
    later
}

// The same, if the one at later stands at the place.
fn earlier_at(
    records: &[u8],
    decls: &[u8],
    memo: &[u8],
    m: usize,
    n: usize,
    from: usize,
    later: usize,
    place: usize,
) -> usize
    requires { Leads records.now decls.now m n from later × ((72 * m ≤ length memo.now) × Complete records.now decls.now memo.now m n) }
    ensures { RacesAt records.now decls.now m n from later place result }
{
    if place_of(records, decls, m, n, later) != place {
        return later;
    }
    earliest(records, decls, memo, m, n, from, later)
}

// The race of the member at the place in the group that begins at from.
pub fn race_in(
    records: &[u8],
    decls: &[u8],
    memo: &[u8],
    m: usize,
    n: usize,
    from: usize,
    place: usize,
) -> Option<Pair>
    requires { Reading records.now decls.now m n × ((72 * m ≤ length memo.now) × Complete records.now decls.now memo.now m n) }
    ensures { InGroup records.now decls.now m n from place result }
{
    let mut i = from;
    loop {
        let at = i;
        let earlier = earlier_at(records, decls, memo, m, n, from, at, place);
        if earlier < at {
            return Some(Pair { earlier, later: at });
        }
        let end = end_of(records, n, at);
        if kind_of(records, n, end) != SEMI {
            return None;
        }
        i = end + 1;
    }
}
