// A run's report: how it ended, and the words of the text's carriers as lines; the text is read once more, for their names.
#![tactic(auto)]

ghost use Rattle.std.specs.Prelude.{◌≤◌, length};
ghost use Rattle.rules.specs.Limits.{longest_text};

use lines::answers::{Answer, Ending};
use lines::bytes::put_byte;
use lines::endings::put_ending;
use listing::listing::put_listing;
use reader::declaring::read;

// Room for the lines of all words. As what a function returns its length is known and nothing else, which spares a caller's proof half a million zeros.
pub fn page() -> [u8; 524544] {
    [0; 524544]
}

// Nothing is written for a text that is refused.
pub fn put_words(
    out: &mut [u8],
    at: usize,
    text: &[u8],
    carriers: &[u8],
    a: &mut [u8],
    b: &mut [u8],
    c: &mut [u8],
) -> usize
    requires text_len_bound { (length text.now ≤ longest_text) × ((65536 ≤ length a.old) × ((65536 ≤ length b.old) × (65536 ≤ length c.old))) }
    requires at_bound { (at ≤ 256) × ((524544 ≤ length out.old) × (32768 ≤ length carriers.now)) }
    ensures { result ≤ length out.new }
{
    match read(text, a, b, c) {
        Err(_) => at,
        Ok(read) => put_listing(out, at, text, a, b, c, read.declarations, carriers),
    }
}

// The first line.
fn put_first(out: &mut [u8], a: Answer) -> usize
    requires { 128 ≤ length out.old }
    ensures { result ≤ 128 }
{
    let next = put_ending(out, 0, a);
    put_byte(out, next, b'\n')
}

// All that is to be written for a text whose run has ended.
pub fn put_report(
    out: &mut [u8],
    ended: Answer,
    text: &[u8],
    carriers: &[u8],
    a: &mut [u8],
    b: &mut [u8],
    c: &mut [u8],
) -> usize
    requires text_len_bound { (length text.now ≤ longest_text) × ((65536 ≤ length a.old) × ((65536 ≤ length b.old) × (65536 ≤ length c.old))) }
    requires in_bounds { (524544 ≤ length out.old) × (32768 ≤ length carriers.now) }
    ensures { result ≤ length out.new }
{
    let next = put_first(out, ended);
    if ended.ending == Ending::Refused {
        return next;
    }
    put_words(out, next, text, carriers, a, b, c)
}
