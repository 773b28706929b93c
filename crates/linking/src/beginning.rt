// The matching before anything is told: the entries of each word are linked.
ghost use Rattle.std.specs.Prelude.{◌+◌, ◌<◌, ◌≤◌, length};
ghost use Rattle.rules.specs.Limits.{most_words};
ghost use Rattle.rules.specs.Entries.{most_entries, entries_in};
ghost use Rattle.matching.specs.Matching.{untold};
ghost use Rattle.matching.specs.Room.{Filled, Linked, Stands};
ghost use Rattle.room.specs.Trace.{room_size};

use cells::{get16, put16};
use listed::entries::{count, entry_at};
use matching::positions::NEVER;
use room::trace::{BAD, DEPTH, FIRST, FLOOR, NEXT};
use rules::limits::MOST_WORDS;

// Puts v as the first entry of every word.
fn fill(room: &mut [u8], v: u16)
    requires { room_size ≤ length room.old }
    ensures { Filled room.old room.new v most_words }
{
    for w in 0..MOST_WORDS {
        put16(room, FIRST + w, v);
    }
}

// Puts the entry i in front of those of its word, which lie behind it.
fn link(room: &mut [u8], entries: &[u8], i: usize)
    requires { Linked (entries_in entries.now) room.old (i + 1) }
    ensures { Linked (entries_in entries.now) room.new i }
{
    put16(room, i, 0);
    let x = entry_at(entries, i);
    let w = x.word as usize;
    if MOST_WORDS <= w {
        return;
    }
    let next = get16(room, FIRST + w);
    put16(room, NEXT + i, next);
    put16(room, FIRST + w, i as u16);
}

// Links all entries, the last one first.
fn link_all(room: &mut [u8], entries: &[u8])
    requires { Linked (entries_in entries.now) room.old (length (entries_in entries.now)) }
    ensures { Linked (entries_in entries.now) room.new 0 }
{
    for i in (0..count(entries)).rev() {
        link(room, entries, i);
    }
}

// Nothing is told yet.
pub fn begin(room: &mut [u8], entries: &[u8])
    requires { (room_size ≤ length room.old) × (length (entries_in entries.now) ≤ most_entries) }
    ensures { Stands (entries_in entries.now) room.new (untold (entries_in entries.now)) }
{
    fill(room, count(entries) as u16);
    link_all(room, entries);
    put16(room, FLOOR, 0);
    put16(room, BAD, NEVER);
    put16(room, DEPTH, 0);
}
