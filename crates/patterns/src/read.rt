// Items of selectors, read from the token table.
ghost use Rattle.std.specs.Prelude.{◌≡◌, ◌+◌, ◌^◌, ◌<◌};
ghost use Rattle.patterns.specs.Items.{meant, range_of};
ghost use Rattle.patterns.specs.Stands.{LiteralView, LiteralRead, ItemView, ItemRead};

use crate::items::Item;
use records::fields::{kind_at, value_at};
use rules::kinds::{COLON, MASKED};

// A constant: its value with 0 for each `?`, and the bits that they leave free.
#[derive(Clone, Copy)]
pub struct Literal {
    pub value: u64,
    pub free: u64,
}

// An item, and the number of the token behind it.
#[derive(Clone, Copy)]
pub struct Found {
    pub item: Item,
    pub next: usize,
}

// The constant at q. Its free bits stand in the cell of the next token.
fn literal_at(records: &[u8], values: &[u8], q: usize) -> Literal
    requires { LiteralView records.now values.now q }
    ensures { (v : LiteralView records.now values.now q) → LiteralRead v.literal result.value result.free }
{
    let value = value_at(values, q);
    if kind_at(records, q) == MASKED {
        return Literal {
            value,
            free: value_at(values, q + 1),
        };
    }
    Literal { value, free: 0 }
}

// The range from one constant to another, either way round.
fn range(one: Literal, other: Literal) -> Item
    requires { (one.value + one.free < 2 ^ 64) × (other.value + other.free < 2 ^ 64) }
    ensures { meant result ≡ range_of one.value one.free other.value other.free }
{
    if other.value < one.value {
        return Item::Between(other.value, one.value + one.free);
    }
    Item::Between(one.value, other.value + other.free)
}

// The item at q.
pub fn item_at(records: &[u8], values: &[u8], q: usize) -> Found
    requires { ItemView records.now values.now q }
    ensures { (v : ItemView records.now values.now q) → ItemRead v.literal v.range q result.item result.next }
{
    let one = literal_at(records, values, q);
    if kind_at(records, q + 1) != COLON {
        return Found {
            item: Item::Pattern(one.value, one.free),
            next: q + 1,
        };
    }
    let other = literal_at(records, values, q + 2);
    Found {
        item: range(one, other),
        next: q + 3,
    }
}
