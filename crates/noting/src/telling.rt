// What a run tells the matching, from left to right.
ghost use Rattle.std.specs.Prelude.{◌<◌, List, [], length};
ghost use Rattle.rules.specs.Limits.{most_words};
ghost use Rattle.rules.specs.Stores as rules;
ghost use Rattle.traces.specs.Cited.Marking.{at};
ghost use Rattle.traces.specs.Cited.Events.{stores, opens, turns, closes};
ghost use Rattle.rules.specs.Entries.{entries_in};
ghost use Rattle.listed.specs.Named.{entry_of};
ghost use Rattle.matching.specs.Matching.{told, part_at, spoilt, told_part};
ghost use Rattle.matching.specs.Room.{endless, matching_in, Sound, Stands};
ghost use Rattle.room.specs.Trace.{most_groups};

use cells::{get16, put16};
use linking::seeking::seek;
use listed::entries::{Entry, count, entry_at, is_same};
use matching::positions::{NEVER, greater, lesser};
use room::trace::{BAD, DEPTH, FLOOR, GROUPS};

// The entry i is bad for a store.
fn spoil(room: &mut [u8], i: u16)
    requires { ((l : List rules.Entry) × Sound l room.old) × (i < endless) }
    ensures { (l : List rules.Entry) → Sound l room.old → Stands l room.new (spoilt i (matching_in l room.old)) }
{
    let bad = lesser(get16(room, BAD), i);
    put16(room, BAD, bad);
    put16(room, FLOOR, NEVER);
}

// A part of a transfer is to stand at the entry i.
fn fit(room: &mut [u8], entries: &[u8], i: usize, x: Entry)
    requires { Sound (entries_in entries.now) room.old }
    ensures { Stands (entries_in entries.now) room.new (part_at (at i) (entry_of x) (matching_in (entries_in entries.now) room.old)) }
{
    if count(entries) <= i {
        put16(room, FLOOR, NEVER);
        return;
    }
    if get16(room, i) != 0 {
        spoil(room, i as u16);
        return;
    }
    if !is_same(x, entry_at(entries, i)) {
        spoil(room, i as u16);
        return;
    }
    put16(room, i, 1);
    put16(room, FLOOR, (i + 1) as u16);
}

// The first part of a transfer: it takes the first entry of its word that is not taken, which must not lie before the floor.
pub fn tell_first(room: &mut [u8], entries: &[u8], x: Entry)
    requires { Sound (entries_in entries.now) room.old × ((entry_of x).word < most_words) }
    ensures { Stands (entries_in entries.now) room.new (told (stores (entry_of x) []) (matching_in (entries_in entries.now) room.old)) }
{
    let i = seek(room, entries, x.word as usize);
    if count(entries) <= i {
        put16(room, FLOOR, NEVER);
        return;
    }
    if i < get16(room, FLOOR) as usize {
        spoil(room, i as u16);
        return;
    }
    fit(room, entries, i, x);
}

// The next part of the transfer that was told last: it takes the entry right behind.
pub fn tell_next(room: &mut [u8], entries: &[u8], x: Entry)
    requires { Sound (entries_in entries.now) room.old }
    ensures { Stands (entries_in entries.now) room.new (told_part (entry_of x) (matching_in (entries_in entries.now) room.old)) }
{
    let i = get16(room, FLOOR);
    if i == NEVER {
        return;
    }
    fit(room, entries, i as usize, x);
}

// A group begins.
pub fn tell_opens(room: &mut [u8])
    requires { (l : List rules.Entry) × (Sound l room.old × (length (matching_in l room.old).groups < most_groups)) }
    ensures { (l : List rules.Entry) → Sound l room.old → Stands l room.new (told opens (matching_in l room.old)) }
{
    let depth = get16(room, DEPTH) as usize;
    let top = GROUPS + 2 * depth;
    let floor = get16(room, FLOOR);
    put16(room, top, floor);
    put16(room, top + 1, 0);
    put16(room, DEPTH, (depth + 1) as u16);
}

// A member of the innermost group has ended, and the next one begins.
pub fn tell_turns(room: &mut [u8])
    requires { (l : List rules.Entry) × Sound l room.old }
    ensures { (l : List rules.Entry) → Sound l room.old → Stands l room.new (told turns (matching_in l room.old)) }
{
    let depth = get16(room, DEPTH) as usize;
    if depth == 0 {
        return;
    }
    let top = GROUPS + 2 * (depth - 1);
    let start = get16(room, top);
    let most = greater(get16(room, top + 1), get16(room, FLOOR));
    put16(room, top + 1, most);
    put16(room, FLOOR, start);
}

// The last member of the innermost group has ended.
pub fn tell_closes(room: &mut [u8])
    requires { (l : List rules.Entry) × Sound l room.old }
    ensures { (l : List rules.Entry) → Sound l room.old → Stands l room.new (told closes (matching_in l room.old)) }
{
    let depth = get16(room, DEPTH) as usize;
    if depth == 0 {
        return;
    }
    let inner = depth - 1;
    let most = greater(get16(room, GROUPS + 2 * inner + 1), get16(room, FLOOR));
    put16(room, FLOOR, most);
    put16(room, DEPTH, inner as u16);
}
