// The reason of any verdict, as numbers.
ghost use Rattle.std.specs.Prelude.{◌≡◌, ◌≤◌, length};
ghost use Rattle.rules.specs.Limits.{longest_text};
ghost use Rattle.rules.specs.Reasons.{no_reason};
ghost use Rattle.rules.specs.Calls.Why.{reason_numbers};
ghost use Rattle.racing.specs.Told.{reason_in};
ghost use Rattle.explaining.specs.Reasons.{Judged, Explained};

use crate::activations::chain_of;
use crate::races::race_of;
use chaining::walks::Numbers;
use racing::telling::Race;

// A race has this in front.
const RACE: u32 = 1;

// The refusals that have a reason.
const MEMBERS_RACE: u32 = 53;

const CHAIN_TOO_LONG: u32 = 51;

// The numbers of nothing more to say.
fn nothing_more() -> Numbers
    ensures { result.n ≡ reason_numbers no_reason }
{
    Numbers { n: [0; 24] }
}

// The numbers of a race.
fn race_numbers(found: Option<Race>) -> Numbers
    ensures { result.n ≡ reason_numbers (reason_in found) }
{
    match found {
        None => nothing_more(),
        Some(race) => {
            let mut numbers = nothing_more();
            numbers.n[0] = RACE;
            numbers.n[1] = race.earlier;
            numbers.n[2] = race.later;
            numbers.n[3] = race.carrier;
            numbers.n[4] = race.name;
            numbers.n[5] = race.who;
            numbers
        }
    }
}

// The numbers of the reason of a verdict, which is known by its number and place.
pub fn reason_of(
    text: &[u8],
    a: &mut [u8],
    b: &mut [u8],
    c: &mut [u8],
    number: u32,
    place: usize,
) -> Numbers
    requires judged { Judged text.now number place × (length text.now ≤ longest_text) }
    requires in_bounds { (65536 ≤ length a.old) × ((65536 ≤ length b.old) × (65536 ≤ length c.old)) }
    ensures { Explained text.now number place result.n }
{
    match number {
        MEMBERS_RACE => race_numbers(race_of(text, a, b, c, place)),
        CHAIN_TOO_LONG => chain_of(text, a, b, c, place),
        _ => nothing_more(),
    }
}
