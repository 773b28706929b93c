// How names are spelled: each name's record takes, as its link, the number of the first name with the same word.
#![tactic(auto)]

pub mod letters;
pub mod nodes;
pub mod searching;
pub mod words;

ghost use Rattle.std.specs.Prelude.{◌+◌, ◌*◌, ◌≤◌, length};
ghost use Rattle.records.specs.Kept.{Kept};
ghost use Rattle.records.specs.Holds.{Tabled};
ghost use Rattle.spelling.specs.Spelled.{Spelled};
ghost use Rattle.room.specs.Spelling.{heads, room_size};
ghost use Rattle.spelling.specs.Spelling.{SpelledTo, Spelling, Seeking, Cleared};

use crate::nodes::{NONE, clear_children, clear_heads};
use crate::searching::search;
use cells::{get16, put16};
use records::fields::{kind_at, put_link};
use rules::kinds::NAME;

// Spells the name i, whose children are cleared: as the node that is found, or as a new one.
fn spell_name(text: &[u8], records: &mut [u8], room: &mut [u8], i: usize)
    requires seeking { Seeking text.now records.old room.old i }
    requires room_size_in_bounds { room_size ≤ length room.old }
    ensures kept { Kept records.old records.new i (i + 1) }
    ensures spelled_to { (v : Seeking text.now records.old room.old i)
        → Cleared room.old (heads + 2 * i) (heads + 2 * (i + 1))
        → SpelledTo records.new room.new v.spelling.tokens (i + 1) }
{
    let c = search(text, records, room, i);
    let x = get16(room, c);
    if x != NONE {
        put_link(records, i, x as usize);
        return;
    }
    put16(room, c, i as u16);
    put_link(records, i, i);
}

// Spells the token i, if it is a name, behind the tokens before it.
fn spell_one(text: &[u8], records: &mut [u8], room: &mut [u8], i: usize)
    requires spelling { Spelling text.now records.old room.old i }
    requires room_size_in_bounds { room_size ≤ length room.old }
    ensures kept { Kept records.old records.new i (i + 1) }
    ensures spelled_to { (v : Spelling text.now records.old room.old i)
        → SpelledTo records.new room.new v.tokens (i + 1) }
{
    clear_children(room, i);
    if kind_at(records, i) == NAME {
        spell_name(text, records, room, i);
    }
}

// Spells the names among the n tokens of a table.
pub fn spell(text: &[u8], records: &mut [u8], room: &mut [u8], n: usize)
    requires tabled { Tabled text.now records.old n }
    requires room_size_in_bounds { room_size ≤ length room.old }
    ensures kept { Kept records.old records.new 0 n }
    ensures spelled { (v : Tabled text.now records.old n) → Spelled records.new v.tokens }
{
    clear_heads(room);
    for i in 0..n {
        spell_one(text, records, room, i);
    }
}
