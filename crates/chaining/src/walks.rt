// The walk down a chain of activations. The levels are made on the way up, and each chooses the next body on the way down.
ghost use Rattle.std.specs.Prelude.{◌≡◌, true, false, List, [], ◌∷◌, ◌++◌, ℕ, ◌+◌, ◌<◌, ◌≤◌, length};
ghost use Rattle.rules.specs.Limits.{longest_chain};
ghost use Rattle.rules.specs.Reasons.{chained, place_in, reason51};
ghost use Rattle.rules.specs.Calls.Why.{reason_numbers};
ghost use Rattle.reading.specs.Reading.{Reading, table_of};
ghost use Rattle.chains.specs.Chains.{Levelled};
ghost use Rattle.chaining.specs.Walks.{Walked};

use crate::firsts::{first_of, refused_body};
use chains::chains::next_level;
use reading::bits::{Set, empty, has, only, union};
use rules::limits::LONGEST_CHAIN;
use sharing::name_place;

// The numbers of a reason.
#[derive(Clone, Copy)]
pub struct Numbers {
    pub n: [u32; 24],
}

// What is listed, by its numbers and as a set of bodies; and the body that is listed next, if there is one.
#[derive(Clone, Copy)]
pub struct Walk {
    pub body: Option<usize>,
    pub listed: Set,
    pub numbers: Numbers,
}

// A chain has this in front.
const CHAIN: u32 = 2;

// The places of a chain stand from here on; how many they are stands before them.
const FIRST: usize = 2;

// The numbers with one more body listed, at the number at.
fn with_body(
    records: &[u8],
    decls: &[u8],
    m: usize,
    n: usize,
    numbers: Numbers,
    body: usize,
    at: usize,
) -> Numbers
    requires { Reading records.now decls.now m n × ((body < m) × ((2 ≤ at) × (at < 24))) }
    ensures { (v : Reading records.now decls.now m n) (places : List ℕ) → numbers.n ≡ reason_numbers (chained places)
        → 2 + length places ≡ at → result.n ≡ reason_numbers (chained (places ++ (place_in (table_of v) body ∷ []))) }
{
    let place = name_place(records, decls, m, n, body);
    let mut more = numbers;
    more.n[at] = place as u32;
    more.n[1] = (at - 1) as u32;
    more
}

// A walk that is over.
fn ended(numbers: Numbers) -> Walk
    ensures { (result.body ≡ None) × (result.numbers ≡ numbers) }
{
    Walk {
        body: None,
        listed: empty(),
        numbers,
    }
}

// Where a walk begins: at the body at the place that begins a chain over 16 bodies long.
fn start(records: &[u8], decls: &[u8], m: usize, n: usize, over: Set, place: usize) -> Walk
    requires { Reading records.now decls.now m n
        × ((v : Reading records.now decls.now m n) → Levelled (table_of v) over.w false longest_chain) }
    ensures { Walked records.now decls.now m n place longest_chain result }
{
    let mut numbers = Numbers { n: [0; 24] };
    let body = refused_body(records, decls, m, n, over, place);
    if m <= body {
        return ended(numbers);
    }
    numbers.n[0] = CHAIN;
    Walk {
        body: Some(body),
        listed: empty(),
        numbers,
    }
}

// The walk with its body listed. It goes on with the first activation of the level k in the text of that body, unless the body is listed a second time.
fn step(
    records: &[u8],
    decls: &[u8],
    m: usize,
    n: usize,
    level: Set,
    all: bool,
    k: usize,
    walk: Walk,
) -> Walk
    requires { Reading records.now decls.now m n × ((k < longest_chain) × ((b : ℕ) → walk.body ≡ Some b → b < m)) }
    ensures { (place : ℕ) → ((v : Reading records.now decls.now m n) → Levelled (table_of v) level.w all k)
        → Walked records.now decls.now m n place (k + 1) walk → Walked records.now decls.now m n place k result }
{
    let Some(body) = walk.body else {
        return walk;
    };
    let before = walk.listed;
    let old = walk.numbers;
    let more = with_body(
        records,
        decls,
        m,
        n,
        old,
        body,
        FIRST + LONGEST_CHAIN - 1 - k,
    );
    if has(before, body) {
        return ended(more);
    }
    let next = first_of(records, decls, m, n, body, level, all);
    if m <= next {
        return ended(more);
    }
    Walk {
        body: Some(next),
        listed: union(only(body), before),
        numbers: more,
    }
}

// The walk down to the level k.
fn descend(
    records: &[u8],
    decls: &[u8],
    m: usize,
    n: usize,
    level: Set,
    k: usize,
    place: usize,
) -> Walk
    requires { Reading records.now decls.now m n × ((k ≤ longest_chain)
        × ((v : Reading records.now decls.now m n) → Levelled (table_of v) level.w false k)) }
    ensures { Walked records.now decls.now m n place k result }
{
    if LONGEST_CHAIN <= k {
        return start(records, decls, m, n, level, place);
    }
    let above = next_level(records, decls, m, n, level, false);
    let walk = descend(records, decls, m, n, above, k + 1, place);
    step(records, decls, m, n, level, false, k, walk)
}

// The numbers of the reason of 51 at the place.
pub fn chain_reason(records: &[u8], decls: &[u8], m: usize, n: usize, place: usize) -> Numbers
    requires { Reading records.now decls.now m n }
    ensures { (v : Reading records.now decls.now m n) → result.n ≡ reason_numbers (reason51 (table_of v) place) }
{
    let bodies = next_level(records, decls, m, n, empty(), true);
    let above = descend(records, decls, m, n, bodies, 1, place);
    let walk = step(records, decls, m, n, empty(), true, 0, above);
    let numbers = walk.numbers;
    match walk.body {
        None => numbers,
        Some(last) => with_body(records, decls, m, n, numbers, last, FIRST + LONGEST_CHAIN),
    }
}
