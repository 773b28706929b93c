// The storage carrier that a name in a destination stores to.
ghost use Rattle.destinations.specs.Owners.{NameHere, Owns};

use accesses::names::is_missing;
use cells::get16;
use records::fields::inside16_at;
use table::meanings::OUTER_ONLY;
use table::views::{bits_of, target_of};

// The carrier of the name i by the number of its declaration: its own, or for a mapping that of the one under it.
pub fn owner(records: &[u8], values: &[u8], decls: &[u8], i: usize) -> Option<u8>
    requires { NameHere records.now values.now decls.now i }
    ensures { (v : NameHere records.now values.now decls.now i) → Owns v result }
{
    let number = inside16_at(records, i);
    if OUTER_ONLY <= number {
        return None;
    }
    let d = get16(decls, number as usize) as usize;
    if let Some(target) = target_of(records, d) {
        return Some(inside16_at(records, target) as u8);
    }
    if is_missing(bits_of(records, values, d)) {
        return None;
    }
    Some(number as u8)
}
