// The members of a group: each against the union of those before it.
ghost use Rattle.std.specs.Prelude.{◌≡◌, ◌++◌, ◌*◌, ◌≤◌, length, drop};
ghost use Rattle.rules.specs.Whole.Sets.{Sets, race};
ghost use Rattle.rules.specs.Faults.Fault.{when};
ghost use Rattle.rules.specs.Limits.{longest_text};
ghost use Rattle.keys.specs.Keys.{least_number_key};
ghost use Rattle.reading.specs.Reading.{Reading, Kinded, table_of};
ghost use Rattle.gathering.specs.Filling.{Complete};
ghost use Rattle.reading.specs.Groups.{place_of, more, group_at};
ghost use Rattle.whole.specs.GroupKeys.{Holding};

use gathering::memory::{Touched, nothing};
use gathering::touches::{joined, passed};
use keys::{NO_KEY, earlier, number_key};
use reading::bits::{meets, union};
use reading::kinds::{end_of, kind_of};
use records::fields::place_at;
use rules::kinds::SEMI;

// Whether two actions race: one writes what the other reads or writes.
pub fn races(u: Touched, t: Touched) -> bool
    ensures { (a b : Sets) → Holding u.reads.w u.writes.w a → Holding t.reads.w t.writes.w b → result ≡ race a b }
{
    let r = u.reads;
    let w = u.writes;
    let s = t.reads;
    let v = t.writes;
    let all = union(r, w);
    if meets(w, union(s, v)) {
        return true;
    }
    meets(v, all)
}

// The least key of 52 and 53 of a member at its place, behind others that touch u.
fn member_key(u: Touched, own: Touched, place: usize) -> u32
    requires { place ≤ longest_text }
    ensures { (a b : Sets) → Holding u.reads.w u.writes.w a → Holding own.reads.w own.writes.w b
        → result ≡ least_number_key (when own.stops 52 place ++ when (race a b) 53 place) }
{
    if own.stops {
        return number_key(52, place);
    }
    if races(u, own) {
        return number_key(53, place);
    }
    NO_KEY
}

// The place of the token i, of n.
pub fn place_of(records: &[u8], decls: &[u8], m: usize, n: usize, i: usize) -> usize
    requires { Reading records.now decls.now m n }
    ensures { (result ≤ longest_text) × ((v : Reading records.now decls.now m n) → result ≡ place_of (drop i v.tokens)) }
{
    if i < n {
        return place_at(records, i);
    }
    0
}

// The least key of a group, and whether it has two members or more: one member alone has none.
#[derive(Clone, Copy)]
pub struct Group {
    pub key: u32,
    pub several: bool,
}

// The group at from. Where its first member is also its last, no key of it counts.
pub fn group_at(records: &[u8], decls: &[u8], memo: &[u8], m: usize, n: usize, from: usize) -> Group
    requires { Reading records.now decls.now m n × ((72 * m ≤ length memo.now) × Complete records.now decls.now memo.now m n) }
    ensures { ((v : Reading records.now decls.now m n) → result.key ≡ least_number_key (group_at (table_of v) (drop from v.tokens)))
        × ((v : Kinded records.now n) → result.several ≡ more (drop from v.tokens)) }
{
    let mut key = NO_KEY;
    let mut before = nothing();
    let mut i = from;
    // A loop: the members are found one behind the other, by what stands behind each.
    loop {
        let member = passed(records, decls, memo, m, n, i);
        let own = member.touched;
        let place = place_of(records, decls, m, n, i);
        key = earlier(key, member_key(before, own, place));
        let end = end_of(records, n, member.at);
        if kind_of(records, n, end) != SEMI {
            if i == from {
                return Group {
                    key: NO_KEY,
                    several: false,
                };
            }
            return Group { key, several: true };
        }
        before = joined(before, own);
        i = end + 1;
    }
}
