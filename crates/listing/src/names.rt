// A name of the text, in capitals.
ghost use Rattle.std.specs.Prelude.{◌+◌, ◌≤◌, length};
ghost use Rattle.records.specs.Holds.{folded_at};
ghost use Rattle.lines.specs.Appended.{Appended};
ghost use Rattle.listing.specs.Standing.{name_bytes, NameStands};

use classes::letters::upper;
use lines::bytes::put_byte;
use records::fields::{place_at, size_at};

// n bytes of the text.
fn put_run(out: &mut [u8], at: usize, text: &[u8], from: usize, n: usize) -> usize
    requires { (at + n ≤ length out.old) × (from + n ≤ length text.now) }
    ensures { Appended out.old out.new at result (folded_at text.now from n) }
{
    let mut next = at;
    for k in 0..n {
        next = put_byte(out, next, upper(text[from + k]));
    }
    next
}

// The name p.
pub fn put_name(out: &mut [u8], at: usize, text: &[u8], records: &[u8], p: usize) -> usize
    requires name_stands { NameStands text.now records.now p }
    requires at_in_bounds { at + 64 ≤ length out.old }
    ensures { Appended out.old out.new at result (name_bytes text.now records.now p) × (result ≤ at + 64) }
{
    let place = place_at(records, p);
    let size = size_at(records, p) as usize;
    put_run(out, at, text, place, size)
}
