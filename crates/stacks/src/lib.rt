// Names on a stack, kept as the numbers of their tokens in cells of lent bytes. An index behind the stack leads from a spelling to a stacked name, so that
// looking a name up takes the same time however many are stacked.
#![tactic(auto)]

ghost use Rattle.std.specs.Prelude.{◌≡◌, ◌<◌};
ghost use Rattle.rules.specs.Faults.Declared.{is_known};
ghost use Rattle.records.specs.Words.{word_at};
ghost use Rattle.stacks.specs.Stacks.{NameView, stacked_words, FoundAt, Pushed};
ghost use Rattle.room.specs.Bodies.{index_from};

use cells::{get16, put16};
use records::fields::link_at;
use room::bodies::INDEX;

// The position of a stacked name with the spelling of the name i, or `count`. The index has cells of names that are no longer stacked, or that no name
// has written yet: so it is believed only where it leads to a stacked name with this spelling.
fn position(records: &[u8], room: &[u8], count: usize, i: usize) -> usize
    requires { NameView records.now room.now count i }
    ensures { FoundAt records.now room.now count i result }
{
    let spelling = link_at(records, i);
    let k = get16(room, INDEX + spelling) as usize;
    if count <= k {
        return count;
    }
    let name = get16(room, k) as usize;
    if link_at(records, name) == spelling {
        return k;
    }
    count
}

// Whether the name i has the word of one of the first `count` names.
pub fn is_stacked(records: &[u8], room: &[u8], count: usize, i: usize) -> bool
    requires { NameView records.now room.now count i }
    ensures { (v : NameView records.now room.now count i)
        → result ≡ is_known (word_at v.tokens i) (stacked_words v.tokens room.now count) }
{
    position(records, room, count, i) < count
}

// Stacks the name i on top of `count` others. The index leads to the lowest name of each spelling, so it holds while names above are taken away.
pub fn push(records: &[u8], room: &mut [u8], count: usize, i: usize)
    requires { NameView records.now room.old count i × (count < index_from) }
    ensures { Pushed records.now count i room.old room.new }
{
    let first = position(records, room, count, i);
    let spelling = link_at(records, i);
    put16(room, INDEX + spelling, first as u16);
    put16(room, count, i as u16);
}
