// The labels around an action, the innermost last: of each its token and its flag. Behind them stand hints: by spelling, where a label that has it was last
// put. So no label above has the word, and a LEAVE looks from there outwards; labels of a body have different words, so it finds its own at once.
ghost use Rattle.std.specs.Prelude.{◌≡◌, List, ◌+◌, ◌*◌, ◌<◌, ◌≤◌, length};
ghost use Rattle.rules.specs.Limits.{most_tokens};
ghost use Rattle.paths.specs.Cited.Marks.{Slot, flag_of};
ghost use Rattle.records.specs.Holds.{link_cell};
ghost use Rattle.records.specs.Words.{word_at};
ghost use Rattle.nesting.specs.Spelt.{Spelt};
ghost use Rattle.nesting.specs.Machine.{State};
ghost use Rattle.nesting.specs.Holding.{Book, book, Linked, Shows, LabelPut};
ghost use Rattle.room.specs.Profile.{hints_from, hint_cell, room_size};
ghost use Rattle.nesting.specs.Jumping.{Sought, Seeking, Jumping, Left, Labels, FlagFound};

use crate::nests::{Nest, mark};
use cells::{get16, put16};
use records::fields::link_at;
use room::profile::{HINTS, LABELS};
use rules::limits::MOST_TOKENS;
use spelling::words::same_spelling;

// Behind the cell of a label's token stands that of its flag.
const LABEL_FLAGS: usize = LABELS + 1;

// The cell of the hint for the name i.
fn hint_cell(records: &[u8], i: usize) -> usize
    requires { 8 * i + 8 ≤ length records.now }
    ensures { (result ≡ hint_cell (link_cell records.now i)) × (hints_from ≤ result) × (2 * result + 2 ≤ room_size) }
{
    HINTS + link_at(records, i) % MOST_TOKENS
}

// The label number j: its name is the token i.
pub fn put_label(records: &[u8], room: &mut [u8], j: usize, i: usize, flag: usize)
    requires { (room_size ≤ length room.old) × (j < most_tokens) × (i < most_tokens) × (8 * i + 8 ≤ length records.now) × (flag < 65536) }
    ensures { LabelPut records.now room.old room.new j i flag }
{
    let at = LABELS + 2 * j;
    let hint = hint_cell(records, i);
    put16(room, at, i as u16);
    put16(room, at + 1, flag as u16);
    put16(room, hint, j as u16);
}

// The name that is the token i is a label.
pub fn label(records: &[u8], room: &mut [u8], i: usize, s: Nest) -> Nest
    requires { (i < most_tokens) × (8 * i + 8 ≤ length records.now) × ((ts : Book) × (z : State) × Shows ts room.old i s z) }
    ensures { Labels records.now room.old room.new i s result }
{
    put_label(records, room, s.label, i, s.flag);
    Nest {
        label: s.label + 1,
        ..s
    }
}

// How many of the labels may have the word of the name: up to the one that its hint leads to.
fn lookable(records: &[u8], room: &[u8], n: usize, count: usize, name: usize) -> usize
    requires { Sought records.now room.now n count name }
    ensures { Seeking records.now room.now n count name result }
{
    let k = get16(room, hint_cell(records, name)) as usize;
    if k < count {
        return k + 1;
    }
    count
}

// The flag of the innermost label that has the word of the name, if there is one.
fn flag_of(records: &[u8], room: &[u8], n: usize, count: usize, name: usize) -> Option<usize>
    requires { Sought records.now room.now n count name }
    ensures { (w : Spelt records.now n) (ls : List Slot) → Linked (book records.now w.tokens) room.now count ls
        → FlagFound (flag_of ls (word_at w.tokens name)) result }
{
    for j in (0..lookable(records, room, n, count, name)).rev() {
        let label = get16(room, LABELS + 2 * j) as usize;
        if same_spelling(records, name, label) {
            return Some(get16(room, LABEL_FLAGS + 2 * j) as usize);
        }
    }
    None
}

// LEAVE of the name: control comes to the end of the label. One that control does not come to marks nothing, so its label is not looked for.
pub fn leave(records: &[u8], room: &mut [u8], n: usize, name: usize, s: Nest) -> Nest
    requires { Jumping records.now room.old n name s }
    ensures { Left records.now room.old room.new n name s result }
{
    if !s.comes {
        return s;
    }
    if let Some(k) = flag_of(records, room, n, s.label, name) {
        mark(room, k, s.comes);
    }
    s
}
