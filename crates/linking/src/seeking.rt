// The first entry of a word that is not taken, along the entries of that word.
ghost use Rattle.std.specs.Prelude.{◌<◌};
ghost use Rattle.rules.specs.Limits.{most_words};
ghost use Rattle.rules.specs.Entries.{entries_in};
ghost use Rattle.matching.specs.Room.{Sound};
ghost use Rattle.linking.specs.Seeking.{Reaches, Seeks};

use cells::{get16, put16};
use listed::entries::count;
use room::trace::{FIRST, NEXT};

// The first entry of the word w that is not taken; the number of entries where there is none.
fn reach(room: &[u8], entries: &[u8], w: usize) -> usize
    requires { Sound (entries_in entries.now) room.now × (w < most_words) }
    ensures { Reaches (entries_in entries.now) room.now w result }
{
    let n = count(entries);
    let mut i = get16(room, FIRST + w) as usize;
    // A while: it follows the chain of the word's entries.
    while i < n {
        if get16(room, i) == 0 {
            return i;
        }
        i = get16(room, NEXT + i) as usize;
    }
    i
}

// The same, and the next search of this word begins there.
pub fn seek(room: &mut [u8], entries: &[u8], w: usize) -> usize
    requires { Sound (entries_in entries.now) room.old × (w < most_words) }
    ensures { Seeks (entries_in entries.now) room.old room.new w result }
{
    let i = reach(room, entries, w);
    put16(room, FIRST + w, i as u16);
    i
}
