// What a description declares: where its declarations stand, the refusals 30 to 33, and what its names mean.
#![tactic(auto)]

pub mod counting;
pub mod faults;
pub mod finding;

ghost use Rattle.std.specs.Prelude.{◌≤◌, length};
ghost use Rattle.rules.specs.Limits.{deepest};
ghost use Rattle.laws_grammar.specs.Cited.Nesting.{nest};
ghost use Rattle.room.specs.Spelling.{room_size};
ghost use Rattle.declare.specs.Finding.{Described};
ghost use Rattle.declare.specs.Told.{Told};

use crate::faults::fault30;
use crate::finding::find;
use keys::{NO_KEY, fault_of};
use resolving::give_meanings;
use rules::refusals::Refusal;
use spelling::spell;

// Spells the names, lists the declarations, gives the names their meanings, and judges the declarations. Returns how many they are, or the least fault
// of the 30s.
pub fn declare(
    text: &[u8],
    records: &mut [u8],
    values: &[u8],
    decls: &mut [u8],
    n: usize,
) -> Result<usize, Refusal>
    requires described { Described text.now records.old values.now n }
    requires room_size_in_bounds { room_size ≤ length decls.old }
    ensures { (v : Described text.now records.old values.now n) → nest v.description ≤ deepest
        → Told text.now records.new values.now decls.new v.tokens v.description result }
{
    spell(text, records, decls, n);
    let m = find(records, decls);
    give_meanings(records, decls, m, n);
    let key = fault30(text, records, values, decls, m);
    if key != NO_KEY {
        return Err(fault_of(key));
    }
    Ok(m)
}
