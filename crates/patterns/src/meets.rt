// Whether two items have a value in common.
ghost use Rattle.std.specs.Prelude.{◌≡◌, ◌+◌, ◌-◌, ◌%◌, ◌^◌, ◌<◌, min, max};
ghost use Rattle.rules.specs.Faults.Bodies as rules;
ghost use Rattle.patterns.specs.Items.{meant};
ghost use Rattle.patterns.specs.Reaches.{may, either_way};

use crate::items::Item;

// Two patterns: no bit that both fix differs.
pub fn patterns_meet(v: u64, f: u64, w: u64, g: u64) -> bool
    ensures { result ≡ rules.patterns_meet 64 v f w g }
{
    (v ^ w) & !f & !g == 0
}

pub fn lower(a: u64, b: u64) -> u64
    ensures { result ≡ min a b }
{
    a.min(b)
}

pub fn higher(a: u64, b: u64) -> u64
    ensures { result ≡ max a b }
{
    a.max(b)
}

// How far a lies above b.
fn above(a: u64, b: u64) -> u64
    ensures { result ≡ a - b }
{
    a.saturating_sub(b)
}

// The value of the bit n.
pub fn weight(n: u32) -> u64
    requires { n < 64 }
    ensures { result ≡ 2 ^ n }
{
    1 << n
}

// Whether the bit n of a value of the pattern may be b.
fn may_be(b: u64, n: u32, v: u64, f: u64) -> bool
    requires { n < 64 }
    ensures { result ≡ may b n v f }
{
    ((f >> n) % 2 == 1) | ((v >> n) % 2 == b)
}

// Where only the highest value has a bit: one without it must reach l, or one with it must not pass h.
fn one_way(without: bool, with: bool, v: u64, f: u64, l: u64, h: u64) -> bool
    requires { v + f < 2 ^ 64 }
    ensures { result ≡ either_way without with v f l h }
{
    without & (l <= v + f) | with & (v <= h)
}

// A pattern and a range, from the highest bit down.
pub fn reaches(v: u64, f: u64, l: u64, h: u64) -> bool
    ensures { result ≡ rules.reaches 64 v f l h }
{
    let mut value = v;
    let mut free = f;
    let mut low = l;
    let mut high = h;
    for n in (0..64u32).rev() {
        let top = weight(n);
        let without = may_be(0, n, value, free);
        let with = may_be(1, n, value, free);
        value = value % top;
        free = free % top;
        if low < top {
            if top <= high {
                return one_way(without, with, value, free, low, high - top);
            }
            if !without {
                return false;
            }
            continue;
        }
        if !with {
            return false;
        }
        low = low - top;
        high = above(high, top);
    }
    low == 0
}

// Two items.
pub fn items_meet(a: Item, b: Item) -> bool
    ensures { result ≡ rules.items_meet (meant a) (meant b) }
{
    match a {
        Item::Pattern(v, f) => match b {
            Item::Pattern(w, g) => patterns_meet(v, f, w, g),
            Item::Between(l, h) => reaches(v, f, l, h),
        },
        Item::Between(l, h) => match b {
            Item::Pattern(v, f) => reaches(v, f, l, h),
            Item::Between(m, k) => higher(l, m) <= lower(h, k),
        },
    }
}
