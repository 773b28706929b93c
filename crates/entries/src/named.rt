// A designer's list by name: a slice of entries. One entry is read from it, and covered code writes it to the bytes of the list.
ghost use Rattle.std.specs.Prelude.{◌≡◌, ◌+◌, ◌*◌, ◌<◌, ◌≤◌, length, get_or};
ghost use Rattle.entries.specs.Entries.{put_entry};
ghost use Rattle.entries.specs.Named.{no_entry};

use crate::put_entry;
use listed::entries::Entry;

// The entry i.
fn named_at(list: &[Entry], i: usize) -> Entry
    requires { i < length list.now }
    ensures { result ≡ get_or list.now i no_entry }
{
    list[i]
}

// Writes the entry i to its bytes.
pub fn put_named(bytes: &mut [u8], list: &[Entry], i: usize)
    requires { (i < length list.now) × (16 * i + 16 ≤ length bytes.old) }
    ensures { bytes.new ≡ put_entry bytes.old i (get_or list.now i no_entry) }
{
    put_entry(bytes, i, named_at(list, i));
}
