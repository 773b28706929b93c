// Tokens and grammar: refusals 10 to 21.
ghost use Rattle.std.specs.Prelude.{◌≡◌, ◌*◌, ◌<◌, ◌≤◌, length};
ghost use Rattle.rules.specs.Limits.{longest_text};
ghost use Rattle.reader.specs.Parsed.{place_by, Scans, Parses};

use grammar::Misplaced;
use records::fields::place_at;
use rules::refusals::Refusal;

// The place of token k of n, or of the end of the text.
fn place_of(records: &[u8], n: usize, k: usize, end: usize) -> usize
    requires { 8 * n ≤ length records.now }
    ensures { result ≡ place_by records.now n k end }
{
    if k < n {
        return place_at(records, k);
    }
    end
}

// Judges the n tokens of a text that has been read into the table.
fn recognised(text: &[u8], records: &[u8], n: usize) -> Result<usize, Refusal>
    requires { Scans text.now records.now n }
    ensures { (v : Scans text.now records.now n) → Parses text.now records.now v.values result }
{
    match grammar::recognise(records, n) {
        Ok(()) => Ok(n),
        Err(Misplaced::Unexpected(token)) => Err(Refusal {
            number: 20,
            place: place_of(records, n, token, text.len()),
        }),
        Err(Misplaced::TooDeep(bracket)) => Err(Refusal {
            number: 21,
            place: place_of(records, n, bracket, text.len()),
        }),
    }
}

// Reads a text into the table and judges its tokens. Returns how many there are: a description stands in the table.
pub fn parse(text: &[u8], records: &mut [u8], values: &mut [u8]) -> Result<usize, Refusal>
    requires { (length text.now ≤ longest_text) × ((65536 ≤ length records.old) × (65536 ≤ length values.old)) }
    ensures { Parses text.now records.new values.new result }
{
    let n = text::scan(text, records, values)?;
    recognised(text, records, n)
}
