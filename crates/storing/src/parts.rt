// The parts of a destination, whose fields wait in the scratch: each is stored, and what its word then holds is told.
ghost use Rattle.std.specs.Prelude.{◌+◌, ◌*◌, ◌<◌, ◌≤◌, length};
ghost use Rattle.rules.specs.Limits.{most_bits, most_words};
ghost use Rattle.rules.specs.Entries.{entries_in};
ghost use Rattle.operands.specs.Cells.{cell_first, cell_low, cell_bits};
ghost use Rattle.evaluation.specs.Stores.{StoresAt};
ghost use Rattle.listed.specs.Named.{entry_of};
ghost use Rattle.matching.specs.Room.{matching_in, Sound, Stands};
ghost use Rattle.storing.specs.Parts.{PartPut, told_at, StoresTold};

use cells::get64;
use evaluation::transfers::store;
use listed::entries::Entry;
use noting::telling::{tell_first, tell_next};
use values::fields::part;

// The field f takes the next part of v, of which `rest` bits are left. The answer is the entry of this store.
fn store_part(carriers: &mut [u8], f: u64, rest: u32, v: u64, place: u32) -> Entry
    requires { ((0 < cell_bits f) × (cell_bits f ≤ rest) × (rest ≤ most_bits))
        × ((8 * cell_first f + 8 ≤ length carriers.old) × ((cell_low f < most_bits) × (cell_low f + cell_bits f ≤ most_bits))) }
    ensures { PartPut carriers.old carriers.new f rest v place result }
{
    let word = (f % 65536) as usize;
    let low = (f / 65536 % 256) as u32;
    let size = (f / 16777216 % 256) as u32;
    let piece = part(rest, size, v);
    store(carriers, word, low, size, piece);
    let value = get64(carriers, word);
    let word = word as u32;
    Entry { place, word, value }
}

// The part k of a transfer is told: the first takes an entry of its word, and each further one the entry right behind.
fn tell_part(room: &mut [u8], entries: &[u8], k: usize, x: Entry)
    requires { Sound (entries_in entries.now) room.old × ((entry_of x).word < most_words) }
    ensures { Stands (entries_in entries.now) room.new
        (told_at k (entry_of x) (matching_in (entries_in entries.now) room.old)) }
{
    if k == 0 {
        tell_first(room, entries, x);
        return;
    }
    tell_next(room, entries, x);
}

// All parts, from left to right.
pub fn store_all(
    carriers: &mut [u8],
    fields: &[u8],
    room: &mut [u8],
    entries: &[u8],
    count: usize,
    bits: u32,
    v: u64,
    place: u32,
)
    requires { StoresAt carriers.old fields.now count bits × ((8 * count ≤ length fields.now)
        × ((length carriers.old ≤ 8 * most_words) × Sound (entries_in entries.now) room.old)) }
    ensures { (s : StoresAt carriers.old fields.now count bits)
        → StoresTold s v place carriers.new (entries_in entries.now) room.old room.new }
{
    let mut rest = bits;
    for k in 0..count {
        let f = get64(fields, k);
        let x = store_part(carriers, f, rest, v, place);
        tell_part(room, entries, k, x);
        rest -= (f / 16777216 % 256) as u32;
    }
}
