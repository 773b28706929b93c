// The alternative of a DECODE that takes a value.
ghost use Rattle.std.specs.Prelude.{◌≡◌};
ghost use Rattle.rules.specs.Selectors.{any_matches, takes};
ghost use Rattle.laws_orders.specs.Cited.Flat.{find};
ghost use Rattle.patterns.specs.Stands.{ItemsView};
ghost use Rattle.stepping.specs.Choice.{CaseView, ChoiceView, place_of};

use patterns::items::matches;
use patterns::read::item_at;
use records::fields::{inside_at, kind_at, link_at};
use rules::kinds::{COMMA, END, LBRA, MASKED, NAME, OTHERWISE};

// Whether one of the items from q on matches x.
fn any_matches(records: &[u8], values: &[u8], q: usize, x: u64) -> bool
    requires { ItemsView records.now values.now q }
    ensures { (v : ItemsView records.now values.now q) → result ≡ any_matches v.items x }
{
    let mut at = q;
    // A loop: an item takes one token or several, and the last one has no comma behind it.
    loop {
        let found = item_at(records, values, at);
        let item = found.item;
        let next = found.next;
        if matches(item, x) {
            return true;
        }
        if kind_at(records, next) != COMMA {
            return false;
        }
        at = next + 1;
    }
}

// Whether the alternative whose selector would begin at q, and whose number is `number`, takes x.
fn takes_value(records: &[u8], values: &[u8], q: usize, number: u64, x: u64) -> bool
    requires { CaseView records.now values.now q number }
    ensures { (v : CaseView records.now values.now q number) → result ≡ takes v.case x }
{
    let kind = kind_at(records, q);
    if kind == OTHERWISE {
        return true;
    }
    if kind == LBRA {
        return any_matches(records, values, q + 1, x);
    }
    if kind == NAME {
        return number == x;
    }
    if MASKED < kind {
        return number == x;
    }
    any_matches(records, values, q, x)
}

// Where the first of the alternatives from the separator p on that takes x leads.
pub fn choose(records: &[u8], values: &[u8], p: usize, x: u64) -> Option<usize>
    requires { ChoiceView records.now values.now p 0 }
    ensures { (v : ChoiceView records.now values.now p 0) → result ≡ place_of (find v.entries x) }
{
    let mut at = p;
    let mut number: u64 = 0;
    // A while: a link leads from each alternative to the next, up to the END.
    while kind_at(records, at) != END {
        if takes_value(records, values, at + 1, number, x) {
            return Some(inside_at(records, at));
        }
        number += 1;
        at = link_at(records, at);
    }
    None
}
