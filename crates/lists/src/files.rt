// The designer's list as a file has it: an entry to a line, `PLACE WORD VALUE` in decimals with blanks between them. Lines without an entry are skipped, and `!`
// begins a comment.
ghost use Rattle.std.specs.Prelude.{◌≤◌, IfOk, length};

use decimals::{behind_digits, decimal_in};
use entries::{ENTRY_ROOM, put_entry};
use listed::entries::Entry;

// A line, counted from 1, that is no entry.
#[derive(Clone, Copy)]
pub struct Unreadable {
    pub line: u64,
}

fn is_blank(byte: u8) -> bool {
    matches!(byte, b' ' | b'\t' | b'\r')
}

fn behind_blanks(line: &[u8], from: usize) -> usize
    requires { from ≤ length line.now }
    ensures { (from ≤ result) × (result ≤ length line.now) }
{
    let rest = &line[from..];
    let blanks = rest.iter().position(|byte| !is_blank(*byte));
    from + blanks.unwrap_or(rest.len())
}

// Whether the line, or what of it is no comment, ends here.
fn is_over(line: &[u8], at: usize) -> bool {
    matches!(line.get(at), None | Some(b'!'))
}

// The entry of three decimals that fit it.
fn entry_of(place: &[u8], word: &[u8], value: &[u8]) -> Option<Entry> {
    Some(Entry {
        place: u32::try_from(decimal_in(place)?).ok()?,
        word: u32::try_from(decimal_in(word)?).ok()?,
        value: decimal_in(value)?,
    })
}

// The entry of the line of this number, if it has one.
fn line_at(line: &[u8], number: u64) -> Result<Option<Entry>, Unreadable> {
    let place = behind_blanks(line, 0);
    if is_over(line, place) {
        return Ok(None);
    }
    let place_end = behind_digits(line, place);
    let word = behind_blanks(line, place_end);
    let word_end = behind_digits(line, word);
    let value = behind_blanks(line, word_end);
    let value_end = behind_digits(line, value);
    let rest = behind_blanks(line, value_end);
    if !is_over(line, rest) {
        return Err(Unreadable { line: number });
    }
    let entry = entry_of(
        &line[place..place_end],
        &line[word..word_end],
        &line[value..value_end],
    )
    .ok_or(Unreadable { line: number })?;
    Ok(Some(entry))
}

// Reads a list into its bytes, and returns how many entries it has. One entry more than a list may have is taken too, so that the call refuses it.
pub fn list_in(file: &[u8], entries: &mut [u8]) -> Result<usize, Unreadable>
    requires { (length file.now ≤ 262144) × (65552 ≤ length entries.old) }
    ensures { IfOk result (λ count. count ≤ 4097) }
{
    let mut count: usize = 0;
    for (number, line) in (1u64..).zip(file.split(|byte| *byte == b'\n')) {
        if let Some(entry) = line_at(line, number)? {
            if count < ENTRY_ROOM {
                put_entry(entries, count, entry);
                count += 1;
            }
        }
    }
    Ok(count)
}
