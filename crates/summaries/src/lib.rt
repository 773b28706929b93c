// Summaries of items: what is known of every value that they match. Lists that their summaries tell apart need no comparison of items.
#![tactic(auto)]

ghost use Rattle.std.specs.Prelude.{◌≡◌, true, [], ◌∷◌};
ghost use Rattle.patterns.specs.Items.{meant};
ghost use Rattle.patterns.specs.Stands.{ItemsView};
ghost use Rattle.summaries.specs.Summaries.{Bounded, Open, Tells, Joins, Apart};

use patterns::items::Item;
use patterns::meets::{higher, lower, patterns_meet};
use patterns::read::item_at;
use records::fields::kind_at;
use rules::kinds::COMMA;

// The values lie from `low` to `high`, and agree with `value` in each bit that is not free.
#[derive(Clone, Copy)]
pub struct Summary {
    pub low: u64,
    pub high: u64,
    pub value: u64,
    pub free: u64,
}

const HIGHEST: u64 = 0xffff_ffff_ffff_ffff;

// The summary that tells nothing.
pub fn open() -> Summary
    ensures { Open result }
{
    Summary {
        low: 0,
        high: HIGHEST,
        value: 0,
        free: HIGHEST,
    }
}

// The summary of one item. A pattern that has a free bit set meets ranges by more than its values, so nothing is told of it; no constant of a text is one.
fn of_item(item: Item) -> Summary
    requires { Bounded (meant item) }
    ensures { Tells (meant item ∷ []) result }
{
    match item {
        Item::Pattern(value, free) => {
            if value & free != 0 {
                return open();
            }
            Summary {
                low: value,
                high: value + free,
                value,
                free,
            }
        }
        Item::Between(low, high) => {
            if low == high {
                return Summary {
                    low,
                    high,
                    value: low,
                    free: 0,
                };
            }
            Summary {
                low,
                high,
                value: 0,
                free: HIGHEST,
            }
        }
    }
}

// A summary of what either tells of: a bit in which they differ becomes free.
fn joined(one: Summary, other: Summary) -> Summary
    ensures { Joins one other result }
{
    Summary {
        low: lower(one.low, other.low),
        high: higher(one.high, other.high),
        value: one.value,
        free: one.free | other.free | (one.value ^ other.value),
    }
}

// Whether no value fits both.
pub fn apart(one: Summary, other: Summary) -> bool
    ensures { result ≡ true → Apart one other }
{
    if one.high < other.low {
        return true;
    }
    if other.high < one.low {
        return true;
    }
    !patterns_meet(one.value, one.free, other.value, other.free)
}

// The summary of the items from q on. The first is joined with itself, so that each turn does the same.
pub fn of_items(records: &[u8], values: &[u8], q: usize) -> Summary
    requires { ItemsView records.now values.now q }
    ensures { (v : ItemsView records.now values.now q) → Tells v.items result }
{
    let first = item_at(records, values, q);
    let first_item = first.item;
    let mut all = of_item(first_item);
    let mut at = q;
    // A loop: whether another item follows is known by the comma behind one.
    loop {
        let found = item_at(records, values, at);
        let item = found.item;
        let next = found.next;
        all = joined(all, of_item(item));
        if kind_at(records, next) != COMMA {
            return all;
        }
        at = next + 1;
    }
}
