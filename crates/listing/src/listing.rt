// The words of a description, declaration by declaration.
ghost use Rattle.std.specs.Prelude.{◌+◌, ◌*◌, ◌≤◌, length};
ghost use Rattle.rules.specs.Grammar.Trees.{Tokens, Description};
ghost use Rattle.rules.specs.Declarations.{declared_of, declarations};
ghost use Rattle.rules.specs.Limits.{most_words};
ghost use Rattle.table.specs.Ready.{Ready};
ghost use Rattle.lines.specs.Appended.{Appended};
ghost use Rattle.listing.specs.Standing.{Stands, Counted};
ghost use Rattle.listing.specs.Listing.{declaration_lines, table_lines};

use crate::words::{put_array, put_word};
use cells::{get16, get64};
use declare::faults::words_in;
use table::views::{Names, words_of};

// The lines of the declaration named p, whose n words have their values in the carriers from w on.
fn put_declaration(
    out: &mut [u8],
    at: usize,
    text: &[u8],
    records: &[u8],
    values: &[u8],
    carriers: &[u8],
    p: usize,
    w: usize,
    n: usize,
) -> usize
    requires counted { Counted text.now records.now values.now p n }
    requires n_in_bounds { (at + 128 * n ≤ length out.old) × (8 * (w + n) ≤ length carriers.now) }
    ensures { ((v : Stands text.now records.now values.now p)
        → Appended out.old out.new at result (declaration_lines carriers.now w (declared_of v.declaration))) × (result ≤ at + 128 * n) }
{
    if n == 0 {
        return at;
    }
    match words_of(records, values, p) {
        Names::Missing => put_word(out, at, text, records, p, get64(carriers, w)),
        Names::Unnamed => at,
        Names::Span(left, right) => put_array(
            out, at, text, records, p, left, right, carriers, w, n,
        ),
    }
}

// The lines of all words of a text whose m declarations stand in the table.
pub fn put_listing(
    out: &mut [u8],
    at: usize,
    text: &[u8],
    records: &[u8],
    values: &[u8],
    decls: &[u8],
    m: usize,
    carriers: &[u8],
) -> usize
    requires ready { (ts : Tokens) × (d : Description) × Ready text.now records.now values.now decls.now ts d m }
    requires most_words_in_bounds { (at + 128 * most_words ≤ length out.old) × (8 * most_words ≤ length carriers.now) }
    ensures { ((ts : Tokens) (d : Description) → Ready text.now records.now values.now decls.now ts d m
        → Appended out.old out.new at result (table_lines carriers.now 0 (declarations d))) × (result ≤ at + 128 * most_words) }
{
    let mut next = at;
    let mut w: usize = 0;
    for k in 0..m {
        let p = get16(decls, k) as usize;
        let n = words_in(records, values, p);
        next = put_declaration(out, next, text, records, values, carriers, p, w, n);
        w += n;
    }
    next
}
