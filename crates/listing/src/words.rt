// The lines of words.
ghost use Rattle.std.specs.Prelude.{◌≡◌, ◌+◌, ◌*◌, ◌<◌, ◌≤◌, length};
ghost use Rattle.rules.specs.Declarations.{names, how_many};
ghost use Rattle.lines.specs.Appended.{Appended};
ghost use Rattle.listing.specs.Standing.{name_bytes, NameStands};
ghost use Rattle.listing.specs.Listing.{value_bytes, word_line, array_line, name_at, array_lines};

use crate::names::put_name;
use cells::get64;
use lines::bytes::{put_byte, put_bytes};
use lines::digits::put_hex_capitals;
use lines::endings::put_labelled;

// A value, up to the end of its line.
fn put_value(out: &mut [u8], at: usize, v: u64) -> usize
    requires { at + 20 ≤ length out.old }
    ensures { Appended out.old out.new at result (value_bytes v) × (result ≤ at + 20) }
{
    let second = put_bytes(out, at, b" = ");
    let third = put_hex_capitals(out, second, v);
    put_byte(out, third, b'\n')
}

// The line of a carrier named p that has one word.
pub fn put_word(out: &mut [u8], at: usize, text: &[u8], records: &[u8], p: usize, v: u64) -> usize
    requires name_stands { NameStands text.now records.now p }
    requires at_in_bounds { at + 128 ≤ length out.old }
    ensures { Appended out.old out.new at result (word_line (name_bytes text.now records.now p) v) × (result ≤ at + 128) }
{
    let next = put_name(out, at, text, records, p);
    put_value(out, next, v)
}

// The line of the word n of an array named p.
fn put_array_word(
    out: &mut [u8],
    at: usize,
    text: &[u8],
    records: &[u8],
    p: usize,
    n: u64,
    v: u64,
) -> usize
    requires name_stands { NameStands text.now records.now p }
    requires at_in_bounds { at + 128 ≤ length out.old }
    ensures { Appended out.old out.new at result (array_line (name_bytes text.now records.now p) n v) × (result ≤ at + 128) }
{
    let second = put_name(out, at, text, records, p);
    let third = put_labelled(out, second, b"[", n);
    let fourth = put_byte(out, third, b']');
    put_value(out, fourth, v)
}

// The i-th name from the left.
fn name_at(left: u64, right: u64, i: u64) -> u64
    requires { i < how_many (names left right) }
    ensures { result ≡ name_at (names left right) i }
{
    if right < left { left - i } else { left + i }
}

// The lines of an array of n words named p, whose values are the carriers' from w on.
pub fn put_array(
    out: &mut [u8],
    at: usize,
    text: &[u8],
    records: &[u8],
    p: usize,
    left: u64,
    right: u64,
    carriers: &[u8],
    w: usize,
    n: usize,
) -> usize
    requires name_stands { NameStands text.now records.now p }
    requires n_value { n ≡ how_many (names left right) }
    requires n_in_bounds { (at + 128 * n ≤ length out.old) × (8 * (w + n) ≤ length carriers.now) }
    ensures { Appended out.old out.new at result
        (array_lines (name_bytes text.now records.now p) (names left right) carriers.now w 0 n) × (result ≤ at + 128 * n) }
{
    let mut next = at;
    for i in 0..n {
        let name = name_at(left, right, i as u64);
        let value = get64(carriers, w + i);
        next = put_array_word(out, next, text, records, p, name, value);
    }
    next
}
