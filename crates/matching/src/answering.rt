// The answer about a list, when all is told.
ghost use Rattle.std.specs.Prelude.{◌≡◌, length};
ghost use Rattle.traces.specs.Cited.Marking as marking;
ghost use Rattle.rules.specs.Entries.{entries_in};
ghost use Rattle.matching.specs.Named.{verdict_of};
ghost use Rattle.matching.specs.Matching.{answer_in};
ghost use Rattle.matching.specs.Room.{pos_of, matching_in, Sound};

use crate::positions::{NEVER, lesser};
use cells::get16;
use listed::entries::count;
use room::trace::{BAD, FLOOR};

// The list is that of no order: the first entry at which it is none, or its length.
#[derive(Clone, Copy)]
pub struct Mismatch {
    pub entry: u16,
}

// The first entry that nothing took.
fn first_left(room: &[u8], entries: &[u8]) -> u16
    requires { Sound (entries_in entries.now) room.now }
    ensures { pos_of result ≡ marking.untaken (matching_in (entries_in entries.now) room.now).cells }
{
    for i in 0..count(entries) {
        if get16(room, i) == 0 {
            return i as u16;
        }
    }
    NEVER
}

// The least entry that is bad or that nothing took; else the length of the list where a store found none.
pub fn answer(room: &[u8], entries: &[u8]) -> Result<(), Mismatch>
    requires { Sound (entries_in entries.now) room.now }
    ensures { verdict_of result ≡ answer_in (matching_in (entries_in entries.now) room.now) (length (entries_in entries.now)) }
{
    let first = lesser(get16(room, BAD), first_left(room, entries));
    if first != NEVER {
        return Err(Mismatch { entry: first });
    }
    if get16(room, FLOOR) == NEVER {
        return Err(Mismatch {
            entry: count(entries) as u16,
        });
    }
    Ok(())
}
