// Where a walk along the tokens of a body stands, and how its count goes up.
ghost use Rattle.std.specs.Prelude.{◌≡◌, List, ℕ, ◌≤◌, max};
ghost use Rattle.bounds.specs.Cited.Counts.{up};
ghost use Rattle.counting.specs.Holding.{Does};
ghost use Rattle.counting.specs.Machine.{counted, turned};

use rules::limits::MOST_STEPS;

// One more than a budget can hold: a count that has come here stays.
pub const ENDLESS: u64 = MOST_STEPS + 1;

// How many BEGINs are open, and the count.
#[derive(Clone, Copy)]
pub struct Nest {
    pub depth: usize,
    pub count: u64,
}

pub fn greater(a: u64, b: u64) -> u64
    ensures { result ≡ max a b }
{
    a.max(b)
}

fn up(x: u64, k: u64) -> u64
    requires { (x ≤ 4294967296) × (k ≤ 4294967297) }
    ensures { result ≡ up x k }
{
    (x + k).min(ENDLESS)
}

// k steps more.
pub fn count(s: Nest, k: u64) -> Nest
    requires { (s.count ≤ 4294967296) × (k ≤ 4294967297) }
    ensures { (room : List ℕ) → Does (counted k) room s room result }
{
    Nest {
        depth: s.depth,
        count: up(s.count, k),
    }
}

// REPEAT and RESTART have no bound.
pub fn turn(s: Nest) -> Nest
    ensures { (room : List ℕ) → Does turned room s room result }
{
    Nest {
        depth: s.depth,
        count: ENDLESS,
    }
}
