// The entries of a lent list of stores, read from their bytes.
ghost use Rattle.std.specs.Prelude.{◌≡◌, ◌+◌, ◌*◌, ◌<◌, ◌≤◌, length, get_or};
ghost use Rattle.cells.specs.Cells.{cell};
ghost use Rattle.rules.specs.Stores.{entry};
ghost use Rattle.traces.specs.Cited.Entries.{same_entry};
ghost use Rattle.rules.specs.Entries.{entries_in, is_list};
ghost use Rattle.listed.specs.Named.{entry_of};

use cells::{get16, get64};

const ENTRY_SIZE: usize = 16;

const MOST_ENTRIES: usize = 4096;

// A store: the place of the transfer, the word's number in carrier order, and the word's new value.
#[derive(Clone, Copy)]
pub struct Entry {
    pub place: u32,
    pub word: u32,
    pub value: u64,
}

// Whether these bytes are a list of whole entries that is not too long; else it is refused with 110.
pub fn is_list(entries: &[u8]) -> bool
    ensures { result ≡ is_list entries.now }
{
    entries.len() % ENTRY_SIZE == 0 && entries.len() / ENTRY_SIZE <= MOST_ENTRIES
}

// The number of entries.
pub fn count(entries: &[u8]) -> usize
    ensures { result ≡ length (entries_in entries.now) }
{
    entries.len() / ENTRY_SIZE
}

// The cell i of four bytes.
fn get32(b: &[u8], i: usize) -> u32
    requires { 4 * i + 4 ≤ length b.now }
    ensures { result ≡ cell 4 b.now i }
{
    (get16(b, 2 * i) as u32) + 65536 * (get16(b, 2 * i + 1) as u32)
}

// The entry i.
pub fn entry_at(entries: &[u8], i: usize) -> Entry
    requires { i < length (entries_in entries.now) }
    ensures { entry_of result ≡ get_or (entries_in entries.now) i (entry 0 0 0) }
{
    Entry {
        place: get32(entries, 4 * i),
        word: get32(entries, 4 * i + 1),
        value: get64(entries, 2 * i + 1),
    }
}

// Whether two entries are the same in all three.
pub fn is_same(a: Entry, b: Entry) -> bool
    ensures { result ≡ same_entry (entry_of a) (entry_of b) }
{
    // A test for each number: the proof cites the first that differs.
    if a.place != b.place {
        return false;
    }
    if a.word != b.word {
        return false;
    }
    a.value == b.value
}
