// The reason of a refusal 53.
ghost use Rattle.std.specs.Prelude.{◌≡◌, ◌*◌, ◌≤◌, length};
ghost use Rattle.std.proofs.Math.Option.{some};
ghost use Rattle.reading.specs.Reading.{Reading, table_of};
ghost use Rattle.gathering.specs.Filling.{Complete};
ghost use Rattle.rules.specs.Reasons.{race_reason, reason53};
ghost use Rattle.racing.specs.Found.{race_of};
ghost use Rattle.racing.specs.Told.{reason_in};

use crate::groups::race;
use gathering::touches::touched;
use sharing::{first_conflict, name_place, writers};
use whole::groups::place_of;

// The places of both members, the carrier's number, the place of its name, and who writes it.
#[derive(Clone, Copy)]
pub struct Race {
    pub earlier: u32,
    pub later: u32,
    pub carrier: u32,
    pub name: u32,
    pub who: u32,
}

// What the members at two tokens share.
fn shared(
    records: &[u8],
    decls: &[u8],
    memo: &[u8],
    m: usize,
    n: usize,
    earlier: usize,
    later: usize,
) -> Option<Race>
    requires { Reading records.now decls.now m n × ((72 * m ≤ length memo.now) × Complete records.now decls.now memo.now m n) }
    ensures { (v : Reading records.now decls.now m n) → reason_in result ≡ race_reason (table_of v) (some (race_of v earlier later)) }
{
    let u = touched(records, decls, memo, m, n, earlier);
    let t = touched(records, decls, memo, m, n, later);
    let k = first_conflict(u, t, m);
    if m <= k {
        return None;
    }
    let first = place_of(records, decls, m, n, earlier);
    let second = place_of(records, decls, m, n, later);
    let name = name_place(records, decls, m, n, k);
    let who = writers(u, t, k);
    Some(Race {
        earlier: first as u32,
        later: second as u32,
        carrier: k as u32,
        name: name as u32,
        who,
    })
}

// The reason of 53 at the place.
pub fn race_reason(
    records: &[u8],
    decls: &[u8],
    memo: &[u8],
    m: usize,
    n: usize,
    place: usize,
) -> Option<Race>
    requires { Reading records.now decls.now m n × ((72 * m ≤ length memo.now) × Complete records.now decls.now memo.now m n) }
    ensures { (v : Reading records.now decls.now m n) → reason_in result ≡ reason53 (table_of v) place }
{
    let found = race(records, decls, memo, m, n, place)?;
    shared(records, decls, memo, m, n, found.earlier, found.later)
}
