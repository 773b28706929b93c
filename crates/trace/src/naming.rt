// The word that an entry names, with the value that the entry gives it, as the listing of all words has it.
ghost use Rattle.std.specs.Prelude.{◌+◌, ◌*◌, ◌<◌, ◌≤◌, length};
ghost use Rattle.rules.specs.Limits.{longest_text};

use asking::Work;
use cells::put64;
use showing::put_words;

// The line of this number, counted from 0; nothing behind the last.
pub fn line_of(listing: &[u8], number: usize) -> &[u8] {
    let mut lines = listing.split(|byte| *byte == b'\n');
    lines.nth(number).unwrap_or(&[])
}

// The listing of all words, of which this one holds the value.
pub fn put_named(
    out: &mut [u8],
    text: &[u8],
    carriers: &mut [u8],
    word: usize,
    value: u64,
    work: &mut Work,
) -> usize
    requires text_len_bound { length text.now ≤ longest_text }
    requires in_bounds { (524544 ≤ length out.old) × ((32768 ≤ length carriers.old) × (8 * word + 8 ≤ length carriers.old)) }
    ensures { result ≤ length out.new }
{
    put64(carriers, word, value);
    put_words(
        out,
        0,
        text,
        carriers,
        &mut work.a,
        &mut work.b,
        &mut work.c,
    )
}
