// What may stand in front of an action: labels, the test of an IF, REPEAT. They follow each other without end, so they are passed by a loop.
ghost use Rattle.std.specs.Prelude.{◌≡◌, true, false, ℕ, ◌+◌, ◌<◌};
ghost use Rattle.ways.specs.Seeking.{Ground, Starts};
ghost use Rattle.ways.specs.Standing.{ActionAt};
ghost use Rattle.ways.specs.Prefixes.{prefixed, TestAt, TestPut, TurnAt, TurnPut, Prefixed, Bared};

use crate::labels::push;
use crate::scans::{first_of, seek};
use records::fields::{kind_at, put_inside, put_link};
use rules::kinds::{ARROW, BECOMES, IF, NAME, REPEAT};

// Where an action begins, where control goes behind it, how many labels are around it, and its first instruction.
#[derive(Clone, Copy)]
pub struct Spot {
    pub at: usize,
    pub link: usize,
    pub count: usize,
    pub first: usize,
}

// Where an action begins, and its first instruction.
#[derive(Clone, Copy)]
pub struct Start {
    pub at: usize,
    pub first: usize,
}

// Whether the action that begins at `at` is a label, an IF or a REPEAT with another action behind it.
fn is_prefix(records: &[u8], at: usize) -> bool
    requires { (g : Ground) × Starts g records.now at }
    ensures { (g : Ground) (v : Starts g records.now at) → result ≡ prefixed v.action }
{
    let kind = kind_at(records, at);
    if kind == IF {
        return true;
    }
    if kind == REPEAT {
        return true;
    }
    if kind != NAME {
        return false;
    }
    kind_at(records, at + 1) == BECOMES
}

// The links of the IF at `at`. Returns its action.
fn test(records: &mut [u8], at: usize, link: usize) -> Start
    requires { ((g : Ground) × TestAt g records.old at) × (link < 65536) }
    ensures { (g : Ground) (v : TestAt g records.old at) → TestPut v records.new link result.at result.first }
{
    let to = seek(records, at + 1, ARROW) + 1;
    let first = first_of(records, to);
    put_inside(records, at, first);
    put_link(records, at, link);
    Start { at: to, first }
}

// The link of the REPEAT at `at`: to the first instruction of its action, which it returns.
fn turn(records: &mut [u8], at: usize) -> usize
    requires { (g : Ground) × TurnAt g records.old at }
    ensures { (g : Ground) (v : TurnAt g records.old at) → TurnPut v records.new result }
{
    let first = first_of(records, at + 1);
    put_link(records, at, first);
    first
}

// One of them. A label's first instruction is that of the action behind it.
fn prefix(records: &mut [u8], labels: &mut [u8], s: Spot) -> Spot
    requires { (g : Ground) × (depth : ℕ) × (v : ActionAt g records.old labels.old s.at s.link s.count s.first depth) × (prefixed v.action ≡ true) }
    ensures { (g : Ground) (depth : ℕ) (v : ActionAt g records.old labels.old s.at s.link s.count s.first depth)
        → prefixed v.action ≡ true → Prefixed v records.new labels.new result.at result.link result.count result.first × (s.at < result.at) }
{
    let at = s.at;
    let link = s.link;
    let count = s.count;
    let first = s.first;
    let kind = kind_at(records, at);
    if kind == IF {
        let start = test(records, at, link);
        return Spot {
            at: start.at,
            link,
            count,
            first: start.first,
        };
    }
    if kind == REPEAT {
        let inner = turn(records, at);
        return Spot {
            at: at + 1,
            link: at,
            count,
            first: inner,
        };
    }
    push(records, labels, count, at, first, link);
    Spot {
        at: at + 2,
        link,
        count: count + 1,
        first,
    }
}

// All of them.
pub fn behind_prefixes(records: &mut [u8], labels: &mut [u8], start: Spot) -> Spot
    requires { (g : Ground) × (depth : ℕ) × ActionAt g records.old labels.old start.at start.link start.count start.first depth }
    ensures { (g : Ground) (depth : ℕ) (v : ActionAt g records.old labels.old start.at start.link start.count start.first depth)
        → Bared v records.new labels.new result.at result.link result.count result.first }
{
    let mut s = start;
    while is_prefix(records, s.at) {
        s = prefix(records, labels, s);
    }
    s
}
