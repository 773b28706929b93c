// The reason of a text that is refused with 53.
ghost use Rattle.std.specs.Prelude.{◌≡◌, ◌≤◌, length};
ghost use Rattle.rules.specs.Limits.{longest_text};
ghost use Rattle.rules.specs.Text.Scan.{scan};
ghost use Rattle.rules.specs.Grammar.Trees.{Description, flatten};
ghost use Rattle.rules.specs.Declarations.{declarations};
ghost use Rattle.rules.specs.Answers.{refused, Checks};
ghost use Rattle.rules.specs.Reasons.{reason53};
ghost use Rattle.racing.specs.Told.{reason_in};
ghost use Rattle.explaining.specs.Again.{Reread};

use crate::rereading::reread;
use chains::chains::chain_key;
use chains::mains::main_key;
use gathering::gathering::gather_all;
use keys::{NO_KEY, earlier};
use racing::telling::{Race, race_reason};

// The race at the place of a text that stands in the table.
fn race_at(
    text: &[u8],
    records: &[u8],
    memo: &mut [u8],
    decls: &[u8],
    m: usize,
    n: usize,
    place: usize,
) -> Option<Race>
    requires checks { Checks text.now (refused 53 place) × Reread text.now records.now decls.now m n }
    requires in_bounds { 65536 ≤ length memo.old }
    ensures { (d : Description) → flatten d ≡ (scan text.now).tokens → reason_in result ≡ reason53 (declarations d) place }
{
    let first = earlier(
        main_key(records, decls, m, n),
        chain_key(records, decls, m, n),
    );
    if first != NO_KEY {
        return None;
    }
    gather_all(records, decls, memo, m, n);
    race_reason(records, decls, memo, m, n, place)
}

// The reason of 53 at the place.
pub fn race_of(text: &[u8], a: &mut [u8], b: &mut [u8], c: &mut [u8], place: usize) -> Option<Race>
    requires checks { Checks text.now (refused 53 place) × (length text.now ≤ longest_text) }
    requires in_bounds { (65536 ≤ length a.old) × ((65536 ≤ length b.old) × (65536 ≤ length c.old)) }
    ensures { (d : Description) → flatten d ≡ (scan text.now).tokens → reason_in result ≡ reason53 (declarations d) place }
{
    match reread(text, a, b, c) {
        Err(_) => None,
        Ok(read) => race_at(text, a, b, c, read.declarations, read.tokens, place),
    }
}
