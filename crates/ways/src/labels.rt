// The labels around an action, in a lent buffer: of each the number of its name's token, where it begins, and where control goes behind it. Behind them
// stand hints: by spelling, where a label that has it was last pushed. So no label above has the word, and a jump looks from there outwards; labels of a body
// have different words, so it finds its own at once.
ghost use Rattle.std.specs.Prelude.{◌≡◌, List, ℕ, ◌+◌, ◌*◌, ◌<◌, ◌≤◌, length};
ghost use Rattle.records.specs.Holds.{link_cell};
ghost use Rattle.records.specs.Words.{word_at};
ghost use Rattle.ways.specs.Seeking.{Ground};
ghost use Rattle.ways.specs.Stack.{Entered, Pushed, JumpAt, Looking, aims};
ghost use Rattle.room.specs.Links.{most_labels, hints_from, hints_end, hint_cell, room_size};

use cells::{get16, put16};
use records::fields::link_at;
use records::words::same_word;
use room::links::HINTS;
use rules::limits::MOST_TOKENS;

// Where a label begins, and where control goes behind it, in its entry.
pub const START: usize = 1;

pub const BEHIND: usize = 2;

// The cell of the hint for the name i.
fn hint_cell(records: &[u8], i: usize) -> usize
    requires { 8 * i + 8 ≤ length records.now }
    ensures { (result ≡ hint_cell (link_cell records.now i)) × (hints_from ≤ result) × (result < hints_end) }
{
    HINTS + link_at(records, i) % MOST_TOKENS
}

// The entry of the label number n: its name is the token p.
fn enter(labels: &mut [u8], n: usize, p: usize, first: usize, link: usize)
    requires { (6 * n + 6 ≤ length labels.old) × (p < 65536) × (first < 65536) × (link < 65536) }
    ensures { Entered labels.old labels.new n p first link }
{
    let o = 3 * n;
    put16(labels, o, p as u16);
    put16(labels, o + 1, first as u16);
    put16(labels, o + 2, link as u16);
}

// The label number n: its name is the token p.
pub fn push(records: &[u8], labels: &mut [u8], n: usize, p: usize, first: usize, link: usize)
    requires { (n < most_labels) × (room_size ≤ length labels.old) × (8 * p + 8 ≤ length records.now) × (p < 65536) × (first < 65536) × (link < 65536) }
    ensures { Pushed records.now labels.old labels.new n p first link }
{
    let hint = hint_cell(records, p);
    enter(labels, n, p, first, link);
    put16(labels, hint, n as u16);
}

// How many of the n labels a jump looks at whose label's name is the token i: up to the one that its hint leads to.
fn lookable(records: &[u8], labels: &[u8], n: usize, i: usize) -> usize
    requires { (text : List ℕ) × (g : Ground) × JumpAt g text records.now labels.now n i }
    ensures { (text : List ℕ) → Looking text records.now labels.now n i result }
{
    let k = get16(labels, hint_cell(records, i)) as usize;
    if k < n {
        return k + 1;
    }
    n
}

// Where a jump goes whose label's name is the token i: that part of the innermost of the n labels; out of the body if there is none.
pub fn aim(text: &[u8], records: &[u8], labels: &[u8], n: usize, i: usize, part: usize) -> usize
    requires { ((g : Ground) × JumpAt g text.now records.now labels.now n i) × (0 < part) × (part < 3) }
    ensures { ((g : Ground) (v : JumpAt g text.now records.now labels.now n i)
        → result ≡ aims part v.around (word_at g.tokens i)) × (result < 65536) }
{
    for j in (0..lookable(records, labels, n, i)).rev() {
        let p = get16(labels, 3 * j) as usize;
        if same_word(text, records, i, p) {
            return get16(labels, 3 * j + part) as usize;
        }
    }
    0
}
