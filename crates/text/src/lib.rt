// From bytes to tokens: the refusals 10 to 13, and the token table.
#![tactic(auto)]

mod bytes;

ghost use Rattle.std.specs.Prelude.{◌≡◌, ◌+◌, ◌*◌, ◌≤◌, length};
ghost use Rattle.cells.specs.Cells.{put_cell};
ghost use Rattle.rules.specs.Text.Scan.{scan as scanText};
ghost use Rattle.rules.specs.Limits.{longest_text};
ghost use Rattle.text.specs.Table.{value_by, pack, record_cells, value_cells, write_cells, scanned_of};

use crate::bytes::CLASSES;
use cells::put64;
use lexemes::lexemes::{Lexeme, lexeme_at};
use rules::kinds::{CONST, MASKED};
use rules::limits::MOST_TOKENS;
use rules::refusals::Refusal;

// What the values have for a token: a constant's value, and for any other kind the free bits of the token before.
fn value_cell(kind: u8, value: u64, before: u64) -> u64
    ensures { result ≡ value_by kind value before }
{
    if kind == CONST {
        return value;
    }
    if kind == MASKED {
        return value;
    }
    before
}

// A token's record in one cell.
fn packed(kind: u8, size: u8, at: usize) -> u64
    requires { at ≤ longest_text }
    ensures { result ≡ pack kind size at }
{
    kind as u64 + 256 * size as u64 + 65536 * at as u64
}

// The cell i of both buffers.
fn put_token(records: &mut [u8], values: &mut [u8], i: usize, record: u64, value: u64)
    requires { (8 * i + 8 ≤ length records.old) × (8 * i + 8 ≤ length values.old) }
    ensures records_after { records.new ≡ put_cell 8 records.old i «record» }
    ensures values_after { values.new ≡ put_cell 8 values.old i value }
{
    put64(records, i, record);
    put64(values, i, value);
}

// Reads a text once, from left to right, and writes a cell of `records` and of `values` for each token. Returns how many there are.
pub fn scan(text: &[u8], records: &mut [u8], values: &mut [u8]) -> Result<usize, Refusal>
    requires { (length text.now ≤ longest_text) × ((65536 ≤ length records.old) × (65536 ≤ length values.old)) }
    ensures value { result ≡ scanned_of (scanText text.now) }
    ensures records_after { records.new ≡ write_cells 8 records.old 0 (record_cells (scanText text.now).tokens) }
    ensures values_after { values.new ≡ write_cells 8 values.old 0 (value_cells 0 (scanText text.now).tokens) }
{
    let classes = CLASSES;
    let mut at: usize = 0;
    let mut count: usize = 0;
    let mut before: u64 = 0;
    // A while: a lexeme takes as many bytes as it says.
    while at < text.len() {
        match lexeme_at(text, &classes, at) {
            Ok(Lexeme::Nothing(more)) => {
                at += more + 1;
            }
            Ok(Lexeme::Token(token)) => {
                if count == MOST_TOKENS {
                    return Err(Refusal {
                        number: 13,
                        place: at,
                    });
                }
                let cell = value_cell(token.kind, token.value, before);
                put_token(
                    records,
                    values,
                    count,
                    packed(token.kind, token.size, at),
                    cell,
                );
                count += 1;
                before = token.free;
                at += token.more + 1;
            }
            Err(misspelling) => {
                return Err(Refusal {
                    number: misspelling.number(),
                    place: at,
                });
            }
        }
    }
    Ok(count)
}
