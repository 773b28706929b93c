// What an action reads and writes, and whether it may stop, gathered from its tokens and from what is remembered of the bodies it activates.
ghost use Rattle.std.specs.Prelude.{◌≡◌, ◌||◌, true, List, ℕ, ◌*◌, ◌<◌, ◌≤◌, length};
ghost use Rattle.rules.specs.Text.Tokens.{Name, kind_no};
ghost use Rattle.rules.specs.Whole.Sets.{owner, member};
ghost use Rattle.records.specs.Holds.{kind_byte};
ghost use Rattle.records.specs.Words.{word_at};
ghost use Rattle.reading.specs.Reading.{Reading, table_of};
ghost use Rattle.reading.specs.Names.{Owned};
ghost use Rattle.reading.specs.Behind.{ComesTo};
ghost use Rattle.reading.specs.Bits.{holds};
ghost use Rattle.gathering.specs.Memory.{Carrying, Recalls};
ghost use Rattle.gathering.specs.Shown.{Touches, Hears, Gathers};

use crate::memory::{Touched, carrier_at, nothing, recalled};
use crate::steps::step;
use reading::bits::{Set, only, union};
use reading::kinds::{kind_of, stores};
use records::fields::{inside_at, kind_at};
use rules::kinds::{LPAR, NAME, STOP};
use rules::limits::MOST_DECLARATIONS;

// No carrier: above every number of a declaration.
const NO_CARRIER: usize = 65535;

// The set with the carrier c; from 256 on there is none.
fn with(s: Set, c: usize) -> Set
    ensures { (xs : List ℕ) → Owned xs c → (k : ℕ) → holds result.w k ≡ (holds s.w k || member k xs) }
{
    if c < MOST_DECLARATIONS {
        return union(s, only(c));
    }
    s
}

fn halted(t: Touched) -> Touched
    ensures { (result.reads.w ≡ t.reads.w) × ((result.writes.w ≡ t.writes.w) × (result.stops ≡ true)) }
{
    let mut h = t;
    h.stops = true;
    h
}

fn reading(t: Touched, c: usize) -> Touched
    ensures { ((xs : List ℕ) → Owned xs c → (k : ℕ) → holds result.reads.w k ≡ (holds t.reads.w k || member k xs))
        × ((result.writes.w ≡ t.writes.w) × (result.stops ≡ t.stops)) }
{
    let reads = t.reads;
    let writes = t.writes;
    Touched {
        reads: with(reads, c),
        writes,
        stops: t.stops,
    }
}

fn writing(t: Touched, c: usize) -> Touched
    ensures { (result.reads.w ≡ t.reads.w)
        × (((xs : List ℕ) → Owned xs c → (k : ℕ) → holds result.writes.w k ≡ (holds t.writes.w k || member k xs)) × (result.stops ≡ t.stops)) }
{
    let reads = t.reads;
    let writes = t.writes;
    Touched {
        reads,
        writes: with(writes, c),
        stops: t.stops,
    }
}

pub fn joined(t: Touched, u: Touched) -> Touched
    ensures { ((k : ℕ) → holds result.reads.w k ≡ (holds t.reads.w k || holds u.reads.w k))
        × (((k : ℕ) → holds result.writes.w k ≡ (holds t.writes.w k || holds u.writes.w k)) × (result.stops ≡ (t.stops || u.stops))) }
{
    let a = t.reads;
    let b = u.reads;
    let c = t.writes;
    let d = u.writes;
    Touched {
        reads: union(a, b),
        writes: union(c, d),
        stops: t.stops || u.stops,
    }
}

// What the body of the name i touches.
fn called(records: &[u8], decls: &[u8], memo: &[u8], m: usize, n: usize, i: usize) -> Touched
    requires { Reading records.now decls.now m n × ((i < n) × ((kind_byte records.now i ≡ kind_no Name) × (72 * m ≤ length memo.now))) }
    ensures { (v : Reading records.now decls.now m n) → Recalls v memo.now (word_at v.tokens i)
        → Touches v (word_at v.tokens i) result.reads.w result.writes.w result.stops }
{
    let k = inside_at(records, i);
    if m <= k {
        return nothing();
    }
    recalled(memo, k)
}

// The storage carrier under the name i, as it is remembered; from 256 on there is none.
fn carried(records: &[u8], decls: &[u8], memo: &[u8], m: usize, n: usize, i: usize) -> usize
    requires { Reading records.now decls.now m n × ((i < n) × ((kind_byte records.now i ≡ kind_no Name) × ((72 * m ≤ length memo.now)
        × Carrying records.now decls.now memo.now m n))) }
    ensures { (v : Reading records.now decls.now m n) → Owned (owner (table_of v) (word_at v.tokens i)) result }
{
    let k = inside_at(records, i);
    if m <= k {
        return NO_CARRIER;
    }
    carrier_at(memo, k)
}

// What is gathered with the name i.
fn named(
    records: &[u8],
    decls: &[u8],
    memo: &[u8],
    m: usize,
    n: usize,
    i: usize,
    mode: usize,
    t: Touched,
) -> Touched
    requires { Reading records.now decls.now m n × ((i < n) × ((kind_byte records.now i ≡ kind_no Name) × ((72 * m ≤ length memo.now)
        × Carrying records.now decls.now memo.now m n))) }
    ensures { Hears records.now decls.now memo.now m n mode i t.reads.w t.writes.w t.stops result.reads.w result.writes.w result.stops }
{
    if mode != 0 {
        return reading(t, carried(records, decls, memo, m, n, i));
    }
    let next = kind_of(records, n, i + 1);
    if next == LPAR {
        return joined(t, called(records, decls, memo, m, n, i));
    }
    if stores(next) {
        return writing(t, carried(records, decls, memo, m, n, i));
    }
    t
}

// What an action touches, and a token from which a search outside of blocks comes to its end.
#[derive(Clone, Copy)]
pub struct Extent {
    pub touched: Touched,
    pub at: usize,
}

// Passes over the action at from.
pub fn passed(records: &[u8], decls: &[u8], memo: &[u8], m: usize, n: usize, from: usize) -> Extent
    requires { Reading records.now decls.now m n × ((72 * m ≤ length memo.now) × Carrying records.now decls.now memo.now m n) }
    ensures { Gathers records.now decls.now memo.now m n from result.touched.reads.w result.touched.writes.w result.touched.stops
        × ComesTo records.now n from result.at }
{
    let mut t = nothing();
    let mut d: usize = 0;
    let mut at_mode: usize = 0;
    for at in from..n {
        let kind = kind_at(records, at);
        if kind == NAME {
            t = named(records, decls, memo, m, n, at, at_mode, t);
            continue;
        }
        if kind == STOP {
            t = halted(t);
            continue;
        }
        let next = step(d, at_mode, kind);
        if next.ends {
            return Extent { touched: t, at };
        }
        if next.closes {
            return Extent {
                touched: t,
                at: at + 1,
            };
        }
        d = next.depth;
        at_mode = next.mode;
    }
    Extent {
        touched: t,
        at: from.max(n),
    }
}

// What the action at from touches.
pub fn touched(
    records: &[u8],
    decls: &[u8],
    memo: &[u8],
    m: usize,
    n: usize,
    from: usize,
) -> Touched
    requires { Reading records.now decls.now m n × ((72 * m ≤ length memo.now) × Carrying records.now decls.now memo.now m n) }
    ensures { Gathers records.now decls.now memo.now m n from result.reads.w result.writes.w result.stops }
{
    let own = passed(records, decls, memo, m, n, from);
    own.touched
}
