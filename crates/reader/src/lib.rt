// From a text to what can be said of it: each pass in its turn, and the first refusal that is found.
#![tactic(auto)]

pub mod declaring;
pub mod judging;
pub mod parsing;

ghost use Rattle.std.specs.Prelude.{◌≤◌, length};
ghost use Rattle.rules.specs.Limits.{longest_text};
ghost use Rattle.reader.specs.Judged.{Judges};

use crate::declaring::read;
use crate::judging::{Accepted, judge};
use rules::refusals::Refusal;

// Reads a text and judges all of it: refusals 10 to 53. An accepted text stands in the table with its names resolved.
pub fn check(
    text: &[u8],
    records: &mut [u8],
    values: &mut [u8],
    room: &mut [u8],
    decls: &mut [u8],
) -> Result<Accepted, Refusal>
    requires text_len_bound { (length text.now ≤ longest_text) × ((65536 ≤ length records.old) × (65536 ≤ length values.old)) }
    requires in_bounds { (65536 ≤ length room.old) × (512 ≤ length decls.old) }
    ensures { Judges text.now records.new values.new decls.new result }
{
    let read = read(text, records, values, room)?;
    judge(
        text,
        records,
        values,
        room,
        decls,
        read.declarations,
        read.tokens,
    )
}
