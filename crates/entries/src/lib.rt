// The entries of a list, written to its bytes.
#![tactic(auto)]

ghost use Rattle.std.specs.Prelude.{◌≡◌, ◌+◌, ◌*◌, ◌≤◌, length};
ghost use Rattle.cells.specs.Cells.{put_cell};
ghost use Rattle.entries.specs.Entries.{put_entry};

use cells::{put16, put64};
use listed::entries::Entry;

pub mod named;

// One more than a list may have.
pub const ENTRY_ROOM: usize = 4097;

// The cell i of four bytes.
fn put32(b: &mut [u8], i: usize, v: u32)
    requires { 4 * i + 4 ≤ length b.old }
    ensures { b.new ≡ put_cell 4 b.old i v }
{
    put16(b, 2 * i, (v % 65536) as u16);
    put16(b, 2 * i + 1, (v / 65536) as u16);
}

// The entry i.
pub fn put_entry(entries: &mut [u8], i: usize, e: Entry)
    requires { 16 * i + 16 ≤ length entries.old }
    ensures { entries.new ≡ put_entry entries.old i e }
{
    put32(entries, 4 * i, e.place);
    put32(entries, 4 * i + 1, e.word);
    put64(entries, 2 * i + 1, e.value);
}
