// Items split by commas, from the token q on.
ghost use Rattle.std.specs.Prelude.{◌≡◌, ◌≤◌};
ghost use Rattle.rules.specs.Faults.Bodies as rules;
ghost use Rattle.patterns.specs.Items.{meant};
ghost use Rattle.patterns.specs.Stands.{ItemsView, TwoLists};

use patterns::items::{Item, past};
use patterns::meets::items_meet;
use patterns::read::item_at;
use records::fields::kind_at;
use rules::kinds::COMMA;

// Whether the item has a value in common with one of those from q on.
fn meets_any(records: &[u8], values: &[u8], item: Item, q: usize) -> bool
    requires { ItemsView records.now values.now q }
    ensures { (v : ItemsView records.now values.now q) → result ≡ rules.meets_any (meant item) v.items }
{
    let mut at = q;
    // A loop: whether another item follows is known by the comma behind one.
    loop {
        let found = item_at(records, values, at);
        let other = found.item;
        let next = found.next;
        if items_meet(item, other) {
            return true;
        }
        if kind_at(records, next) != COMMA {
            return false;
        }
        at = next + 1;
    }
}

// Whether some value lies in an item from p on and in one from q on.
pub fn some_meet(records: &[u8], values: &[u8], p: usize, q: usize) -> bool
    requires { TwoLists records.now values.now p q }
    ensures { (v : TwoLists records.now values.now p q) → result ≡ rules.some_meet_of v.first v.second }
{
    let mut at = p;
    // A loop: whether another item follows is known by the comma behind one.
    loop {
        let found = item_at(records, values, at);
        let item = found.item;
        let next = found.next;
        if meets_any(records, values, item, q) {
            return true;
        }
        if kind_at(records, next) != COMMA {
            return false;
        }
        at = next + 1;
    }
}

// Whether the highest value of an item from q on takes more than n bits.
pub fn past_length(records: &[u8], values: &[u8], n: u32, q: usize) -> bool
    requires { (n ≤ 64) × ItemsView records.now values.now q }
    ensures { (v : ItemsView records.now values.now q) → result ≡ rules.past n v.items }
{
    let mut at = q;
    // A loop: whether another item follows is known by the comma behind one.
    loop {
        let found = item_at(records, values, at);
        let item = found.item;
        let next = found.next;
        if past(item, n) {
            return true;
        }
        if kind_at(records, next) != COMMA {
            return false;
        }
        at = next + 1;
    }
}
