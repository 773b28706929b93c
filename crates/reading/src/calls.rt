// The activations of an action, one after the other.
ghost use Rattle.std.specs.Prelude.{◌+◌, ◌≤◌, ◌<◌, drop};
ghost use Rattle.reading.specs.Kinds.{next_no};
ghost use Rattle.reading.specs.Reading.{Kinded};
ghost use Rattle.reading.specs.Calls.{Activates, NextCall};

use crate::kinds::{closes, kind_of, mode};
use records::fields::kind_at;
use rules::kinds::{LPAR, NAME};
use table::scans::{SEPARATOR, deeper, halts};

// The name of a body that is activated, or as many as there are tokens; and where to go on.
#[derive(Clone, Copy)]
pub struct Call {
    pub name: usize,
    pub at: usize,
    pub depth: usize,
    pub mode: usize,
}

// Whether the token activates: a name in front of `(` where an action begins.
fn activates(records: &[u8], n: usize, at: usize, kind: u8, m: usize) -> bool
    requires { Kinded records.now n × (at < n) }
    ensures { (v : Kinded records.now n) → Activates result kind m (next_no (drop (at + 1) v.tokens)) }
{
    kind == NAME && m == 0 && kind_of(records, n, at + 1) == LPAR
}

fn no_call(n: usize) -> Call
    ensures { n ≤ result.name }
{
    Call {
        name: n,
        at: n,
        depth: 0,
        mode: 0,
    }
}

// The next activation from the token at on.
pub fn next_call(records: &[u8], n: usize, at: usize, depth: usize, from: usize) -> Call
    requires { Kinded records.now n × ((depth ≤ at) × (from ≤ at + 1)) }
    ensures { NextCall records.now n at depth from result.name result.at result.depth result.mode }
{
    let mut d = depth;
    let mut m = from;
    for i in at..n {
        let kind = kind_at(records, i);
        if halts(SEPARATOR, d, kind) {
            return no_call(n);
        }
        if activates(records, n, i, kind, m) {
            return Call {
                name: i,
                at: i + 1,
                depth: d,
                mode: 0,
            };
        }
        if closes(d, kind) {
            return no_call(n);
        }
        d = deeper(d, kind);
        m = mode(m, kind);
    }
    no_call(n)
}
