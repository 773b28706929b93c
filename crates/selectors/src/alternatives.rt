// The alternatives of one DECODE, by the tokens at which they begin.
ghost use Rattle.std.specs.Prelude.{◌≡◌, List, ℕ, ◌≤◌};
ghost use Rattle.rules.specs.Faults.Bodies as rules;
ghost use Rattle.patterns.specs.Stands.{AlternativeView, TwoAlternatives};
ghost use Rattle.selectors.specs.Overlaps.{Begin, AlternativesView, FirstOverlap};
ghost use Rattle.summaries.specs.Summaries.{Tells};

use crate::lists::{past_length, some_meet};
use cells::get16;
use records::fields::kind_at;
use rules::kinds::{LBRA, OTHERWISE};
use summaries::{Summary, apart, of_items, open};

// Where the items of the alternative at p begin; OTHERWISE has none.
fn items_of(records: &[u8], p: usize) -> Option<usize>
    requires { (values : List ℕ) × AlternativeView records.now values p }
    ensures { (values : List ℕ) (v : AlternativeView records.now values p) → Begin v.tokens v.items result }
{
    let kind = kind_at(records, p);
    if kind == OTHERWISE {
        return None;
    }
    if kind == LBRA {
        return Some(p + 1);
    }
    Some(p)
}

// Whether the highest value of the alternative at p takes more than n bits.
pub fn past(records: &[u8], values: &[u8], n: u32, p: usize) -> bool
    requires { (n ≤ 64) × AlternativeView records.now values.now p }
    ensures { (v : AlternativeView records.now values.now p) → result ≡ rules.past n v.items }
{
    match items_of(records, p) {
        Some(q) => past_length(records, values, n, q),
        None => false,
    }
}

// Whether the alternatives at p and at q have a value in common.
fn overlap(records: &[u8], values: &[u8], p: usize, q: usize) -> bool
    requires { TwoAlternatives records.now values.now p q }
    ensures { (v : TwoAlternatives records.now values.now p q) → result ≡ rules.some_meet_of v.first v.second }
{
    match items_of(records, p) {
        Some(a) => match items_of(records, q) {
            Some(b) => some_meet(records, values, a, b),
            None => false,
        },
        None => false,
    }
}

// The summary of the alternative at p; OTHERWISE has no items to tell of.
fn summary_of(records: &[u8], values: &[u8], p: usize) -> Summary
    requires { AlternativeView records.now values.now p }
    ensures { (v : AlternativeView records.now values.now p) → Tells v.items result }
{
    match items_of(records, p) {
        Some(q) => of_items(records, values, q),
        None => open(),
    }
}

// The first alternative that overlaps an earlier one, or `count`. Items are compared only where two summaries do not tell the alternatives apart.
pub fn first_overlap(records: &[u8], values: &[u8], starts: &[u8], count: usize) -> usize
    requires { AlternativesView records.now values.now starts.now count }
    ensures { (v : AlternativesView records.now values.now starts.now count) → FirstOverlap v.items count result }
{
    for later in 0..count {
        let p = get16(starts, later) as usize;
        let one = summary_of(records, values, p);
        for earlier in 0..later {
            let q = get16(starts, earlier) as usize;
            let other = summary_of(records, values, q);
            if !apart(one, other) && overlap(records, values, p, q) {
                return later;
            }
        }
    }
    count
}
