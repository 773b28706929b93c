// The alternatives of one DECODE, each by itself and against the others: 45.
#![tactic(auto)]

ghost use Rattle.std.specs.Prelude.{◌≡◌, ◌||◌, [], ◌∷◌, ◌+◌, ◌*◌, ◌<◌, ◌≤◌, min, leb, length};
ghost use Rattle.rules.specs.Selectors.{between};
ghost use Rattle.rules.specs.Faults.Fault.{when};
ghost use Rattle.rules.specs.Faults.Bodies as rules;
ghost use Rattle.rules.specs.Limits.{most_alternatives};
ghost use Rattle.patterns.specs.Stands.{AlternativeView};
ghost use Rattle.records.specs.Holds.{place_cell};
ghost use Rattle.keys.specs.Keys.{least_key};
ghost use Rattle.room.specs.Bodies.{level_base};
ghost use Rattle.choices.specs.Choices.{with_start, StartsView, OverlapAnswer, BehindView, BehindAnswer};

use cells::{get16, put16};
use keys::{NO_KEY, fault_key};
use patterns::items;
use patterns::items::Item;
use records::fields::{kind_at, place_at};
use room::bodies::{STARTS, STARTS_SIZE};
use rules::kinds::BECOMES;
use rules::limits::MOST_ALTERNATIVES;
use selectors::alternatives;
use selectors::alternatives::first_overlap;

// 45 for an alternative behind `number` others, where it is one too many, or past the tested length.
fn choice_fault(records: &[u8], at: usize, number: usize, past: bool) -> u32
    requires { (8 * at + 8 ≤ length records.now) × (place_cell records.now at ≤ 32768) }
    ensures { result ≡ least_key (when (leb most_alternatives number || past) 45 (place_cell records.now at)) }
{
    if (MOST_ALTERNATIVES <= number) | past {
        return fault_key(45, place_at(records, at));
    }
    NO_KEY
}

// An alternative without a selector: its number is its only value.
pub fn counted_fault(records: &[u8], at: usize, number: usize, bits: u32) -> u32
    requires { (8 * at + 8 ≤ length records.now) × (place_cell records.now at ≤ 32768) × (bits ≤ 64) }
    ensures { result ≡ least_key (when (leb most_alternatives number || rules.past bits (between number number ∷ [])) 45 (place_cell records.now at)) }
{
    let value = number as u64;
    choice_fault(
        records,
        at,
        number,
        items::past(Item::Between(value, value), bits),
    )
}

// An alternative with a selector.
pub fn selected_fault(records: &[u8], values: &[u8], at: usize, number: usize, bits: u32) -> u32
    requires { (8 * at + 8 ≤ length records.now) × (place_cell records.now at ≤ 32768) × (bits ≤ 64) × AlternativeView records.now values.now at }
    ensures { (v : AlternativeView records.now values.now at)
        → result ≡ least_key (when (leb most_alternatives number || rules.past bits v.items) 45 (place_cell records.now at)) }
{
    choice_fault(
        records,
        at,
        number,
        alternatives::past(records, values, bits, at),
    )
}

// Keeps where an alternative begins, if it is one of those that are compared.
pub fn keep_start(room: &mut [u8], depth: usize, number: usize, at: usize)
    requires { (2 * level_base (depth + 1) ≤ length room.old) × (at < 65536) }
    ensures { room.new ≡ with_start room.old depth number at }
{
    if number < STARTS_SIZE {
        put16(room, STARTS + STARTS_SIZE * depth + number, at as u16);
    }
}

// How many of the alternatives are compared.
fn compared(number: usize) -> usize
    ensures { result ≡ min number 64 }
{
    number.min(STARTS_SIZE)
}

// 45 at the first alternative that overlaps an earlier one.
pub fn overlap_fault(records: &[u8], values: &[u8], room: &[u8], depth: usize, number: usize) -> u32
    requires { StartsView records.now values.now room.now depth number }
    ensures { (v : StartsView records.now values.now room.now depth number) → OverlapAnswer v result }
{
    let count = compared(number);
    let base = STARTS + STARTS_SIZE * depth;
    let from = 2 * base;
    let later = first_overlap(records, values, &room[from..], count);
    if later == count {
        return NO_KEY;
    }
    let at = get16(room, base + later) as usize;
    fault_key(45, place_at(records, at))
}

// The token behind the `:=` of the selector at `at`.
pub fn behind_selector(records: &[u8], at: usize) -> usize
    requires { BehindView records.now at }
    ensures { (v : BehindView records.now at) → BehindAnswer v result }
{
    let mut i = at;
    while kind_at(records, i) != BECOMES {
        i += 1;
    }
    i + 1
}
