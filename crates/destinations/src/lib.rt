// A destination: accesses joined by `@`, up to `=`. Refusals 40 to 43 and 46.
#![tactic(auto)]

pub mod carriers;
pub mod owners;

ghost use Rattle.std.specs.Prelude.{◌≡◌, ◌+◌, ◌*◌, ◌≤◌, length};
ghost use Rattle.rules.specs.Faults.Fault.{when};
ghost use Rattle.records.specs.Holds.{place_cell};
ghost use Rattle.keys.specs.Keys.{least_key};
ghost use Rattle.destinations.specs.Destinations.{repeats, stored, DestinationAt, DestinationAnswer};

use crate::carriers::{Carriers, has, no_carriers, with};
use crate::owners::owner;
use expressions::judge::access;
use keys::{NO_KEY, earlier, fault_key};
use records::fields::{kind_at, place_at};
use rules::kinds::AT;
use weighing::Weight;
use weighing::operators::combined;

// The key of the least fault, and the token behind.
#[derive(Clone, Copy)]
pub struct Checked {
    pub key: u32,
    pub next: usize,
}

// 46 at the name i, where its carrier is stored to already.
fn repeat_key(records: &[u8], kept: Carriers, to: Option<u8>, i: usize) -> u32
    requires { (8 * i + 8 ≤ length records.now) × (place_cell records.now i ≤ 32768) }
    ensures { result ≡ least_key (when (repeats kept.words to) 46 (place_cell records.now i)) }
{
    match to {
        Some(k) if has(kept, k) => fault_key(46, place_at(records, i)),
        _ => NO_KEY,
    }
}

fn with_storage(kept: Carriers, to: Option<u8>) -> Carriers
    ensures { result.words ≡ stored kept.words to }
{
    match to {
        None => kept,
        Some(k) => with(kept, k),
    }
}

// A destination: faults of its accesses, 43 where the running length passes 64, and 46.
pub fn destination(records: &[u8], values: &[u8], decls: &[u8], i: usize, depth: usize) -> Checked
    requires { DestinationAt records.now values.now decls.now i depth }
    ensures { (v : DestinationAt records.now values.now decls.now i depth) → DestinationAnswer v result }
{
    let first = access(records, values, decls, i, depth);
    let to = owner(records, values, decls, i);
    let mut kept = with_storage(no_carriers(), to);
    let mut weight = Weight {
        key: first.key,
        bits: first.bits,
    };
    let mut twice = NO_KEY;
    let mut at = first.next;
    while kind_at(records, at) == AT {
        let name = at + 1;
        let part = access(records, values, decls, name, depth);
        let right = Weight {
            key: part.key,
            bits: part.bits,
        };
        weight = combined(AT, place_at(records, at), weight, right);
        let again = owner(records, values, decls, name);
        twice = earlier(twice, repeat_key(records, kept, again, name));
        kept = with_storage(kept, again);
        at = part.next;
    }
    Checked {
        key: earlier(weight.key, twice),
        next: at,
    }
}
