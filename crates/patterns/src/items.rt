// One item of a selector.
ghost use Rattle.std.specs.Prelude.{◌≡◌, ◌+◌, ◌^◌, ◌<◌, ◌≤◌, leb};
ghost use Rattle.rules.specs.Selectors as rules;
ghost use Rattle.patterns.specs.Items.{meant};

use crate::meets::{patterns_meet, weight};

// What an item stands for: a value with free bits, or all values from a lowest to a highest.
#[derive(Clone, Copy)]
pub enum Item {
    Pattern(u64, u64),
    Between(u64, u64),
}

// Whether the item matches x.
pub fn matches(item: Item, x: u64) -> bool
    ensures { result ≡ rules.matches (meant item) x }
{
    match item {
        Item::Pattern(v, f) => patterns_meet(v, f, x, 0),
        Item::Between(l, h) => (l <= x) & (x <= h),
    }
}

// The highest value that the item matches.
fn highest(item: Item) -> u64
    requires { rules.highest (meant item) < 2 ^ 64 }
    ensures { result ≡ rules.highest (meant item) }
{
    match item {
        Item::Pattern(v, f) => v + f,
        Item::Between(_, h) => h,
    }
}

// Whether x takes more than n bits.
fn longer(x: u64, n: u32) -> bool
    requires { n ≤ 64 }
    ensures { result ≡ leb (2 ^ n) x }
{
    n < 64 && weight(n) <= x
}

// Whether the highest value that the item matches takes more than n bits.
pub fn past(item: Item, n: u32) -> bool
    requires { (n ≤ 64) × (rules.highest (meant item) < 2 ^ 64) }
    ensures { result ≡ leb (2 ^ n) (rules.highest (meant item)) }
{
    longer(highest(item), n)
}
