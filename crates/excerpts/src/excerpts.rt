// The line of the text that has a place, and a mark below it, as compilers show it.
ghost use Rattle.std.specs.Prelude.{◌+◌, ◌≤◌, length};

use lines::bytes::{put_byte, put_bytes};

// Of a long line so many columns are shown, and so many of them before the mark.
const SHOWN: usize = 120;

const SHOWN_BEFORE: usize = 80;

// Where the line of an offset starts.
fn line_start(text: &[u8], offset: usize) -> usize
    requires { offset ≤ length text.now }
    ensures { result ≤ offset }
{
    let before = &text[..offset];
    before
        .iter()
        .rposition(|byte| *byte == b'\n')
        .map_or(0, |end| end + 1)
}

// Where it ends.
fn line_end(text: &[u8], offset: usize) -> usize
    requires { offset ≤ length text.now }
    ensures { (offset ≤ result) × (result ≤ length text.now) }
{
    let rest = &text[offset..];
    let more = rest.iter().position(|byte| *byte == b'\n');
    offset + more.unwrap_or(rest.len())
}

// The same without the byte 13 that some editors put before a line's end.
fn shown_end(text: &[u8], start: usize, end: usize) -> usize
    requires { end ≤ length text.now }
    ensures { result ≤ end }
{
    if start < end && text[end - 1] == b'\r' {
        end - 1
    } else {
        end
    }
}

// Where what is shown of a line starts.
fn cut_start(start: usize, offset: usize) -> usize
    requires { start ≤ offset }
    ensures { (start ≤ result) × ((result ≤ offset) × (offset ≤ result + 80)) }
{
    start.max(offset.saturating_sub(SHOWN_BEFORE))
}

// Where it ends.
fn cut_end(from: usize, end: usize) -> usize
    requires { from ≤ 32769 }
    ensures { (result ≤ end) × (result ≤ from + 120) }
{
    end.min(from + SHOWN)
}

// A byte as it can be shown.
fn shown(byte: u8) -> u8 {
    match byte {
        b'\t' | b' '..=b'~' => byte,
        _ => b'?',
    }
}

// What stands below a byte before the mark.
fn below(byte: u8) -> u8 {
    if byte == b'\t' { b'\t' } else { b' ' }
}

// The bytes of the text from `from` to `to`.
fn put_shown(out: &mut [u8], at: usize, text: &[u8], from: usize, to: usize) -> usize
    requires { (at + 120 ≤ length out.old) × ((to ≤ from + 120) × (to ≤ length text.now)) }
    ensures { result ≤ at + 120 }
{
    let mut next = at;
    for k in from..to {
        next = put_byte(out, next, shown(text[k]));
    }
    next
}

// What stands below them.
fn put_below(out: &mut [u8], at: usize, text: &[u8], from: usize, to: usize) -> usize
    requires { (at + 80 ≤ length out.old) × ((to ≤ from + 80) × (to ≤ length text.now)) }
    ensures { result ≤ at + 80 }
{
    let mut next = at;
    for k in from..to {
        next = put_byte(out, next, below(text[k]));
    }
    next
}

// Bytes, if something is so.
fn put_if(out: &mut [u8], at: usize, is_so: bool, more: &[u8]) -> usize
    requires { at + length more.now ≤ length out.old }
    ensures { result ≤ at + length more.now }
{
    if is_so { put_bytes(out, at, more) } else { at }
}

// The line, with dots where it is cut.
fn put_line(out: &mut [u8], at: usize, text: &[u8], start: usize, from: usize, end: usize) -> usize
    requires { (at + 128 ≤ length out.old) × ((from ≤ 32769) × (end ≤ length text.now)) }
    ensures { result ≤ at + 128 }
{
    let to = cut_end(from, end);
    let second = put_if(out, at, start < from, b"...");
    let third = put_shown(out, second, text, from, to);
    let fourth = put_if(out, third, to < end, b"...");
    put_byte(out, fourth, b'\n')
}

// The mark, below the column of the offset.
fn put_mark(
    out: &mut [u8],
    at: usize,
    text: &[u8],
    start: usize,
    from: usize,
    offset: usize,
) -> usize
    requires { (at + 128 ≤ length out.old) × ((offset ≤ from + 80) × (offset ≤ length text.now)) }
    ensures { result ≤ at + 128 }
{
    let second = put_if(out, at, start < from, b"   ");
    let third = put_below(out, second, text, from, offset);
    put_bytes(out, third, b"^\n")
}

pub fn put_excerpt(out: &mut [u8], at: usize, text: &[u8], offset: usize) -> usize
    requires { (at + 256 ≤ length out.old) × ((offset ≤ length text.now) × (length text.now ≤ 32769)) }
    ensures { result ≤ at + 256 }
{
    let start = line_start(text, offset);
    let end = shown_end(text, start, line_end(text, offset));
    let from = cut_start(start, offset);
    let next = put_line(out, at, text, start, from, end);
    put_mark(out, next, text, start, from, offset)
}
