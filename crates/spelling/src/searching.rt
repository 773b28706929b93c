// The search for the word of a name among the names before it.
ghost use Rattle.std.specs.Prelude.{◌≤◌, length};
ghost use Rattle.room.specs.Spelling.{room_size};
ghost use Rattle.spelling.specs.Spelling.{Seeking, Ends};

use crate::letters::{bit_of, hash_of};
use crate::nodes::NONE;
use cells::get16;
use records::fields::{place_at, size_at};
use records::words::same_word;
use room::spelling::HEADS;

// The cell at which the search for the word of the name i ends: it has a name of the same word, or none.
pub fn search(text: &[u8], records: &[u8], room: &[u8], i: usize) -> usize
    requires seeking { Seeking text.now records.now room.now i }
    requires room_size_in_bounds { room_size ≤ length room.now }
    ensures { (v : Seeking text.now records.now room.now i)
        → Ends room.now v.spelling.tokens i result }
{
    let p = place_at(records, i);
    let n = size_at(records, i) as usize;
    let mut c = hash_of(text, p, n);
    let mut depth: usize = 0;
    // A loop: it goes down a tree until a node is missing or has the word.
    loop {
        let x = get16(room, c);
        if x == NONE {
            return c;
        }
        let node = x as usize;
        if same_word(text, records, node, i) {
            return c;
        }
        c = HEADS + 2 * node + bit_of(text, p, n, depth);
        depth += 1;
    }
}
