// The first word of each declaration: words lie in the order of the declarations.
ghost use Rattle.std.specs.Prelude.{◌≡◌, ◌*◌, ◌≤◌, length};
ghost use Rattle.rules.specs.Declarations.{declared_of, words_of};
ghost use Rattle.rules.specs.Limits.{most_words};
ghost use Rattle.table.specs.Ready.{Scene, table_of};
ghost use Rattle.table.specs.Views.{View};
ghost use Rattle.places.specs.Bases.{FirstsHold};
ghost use Rattle.places.specs.Counting.{WordsIn, StorageIn};

use crate::spans::how_many;
use cells::{get16, put16};
use table::views::{Names, bits_of, target_of, words_of};

// How many words there are with these names.
fn words_named(words: Names) -> u64
    ensures { (result ≤ most_words) × WordsIn words result }
{
    match words {
        Names::Missing | Names::Unnamed => 1,
        Names::Span(l, r) => how_many(l, r),
    }
}

// The words of a declaration that is no mapping, by its bits and words.
fn storage_words(own: Names, words: Names) -> u64
    ensures { (result ≤ most_words) × StorageIn own words result }
{
    match own {
        Names::Missing => 0,
        Names::Unnamed | Names::Span(_, _) => words_named(words),
    }
}

// The words of the declaration whose name is the token p.
fn words_in(records: &[u8], values: &[u8], p: usize) -> u64
    requires { View records.now values.now p }
    ensures { (result ≤ most_words) × ((v : View records.now values.now p)
        → words_of (declared_of v.declaration) ≤ most_words → result ≡ words_of (declared_of v.declaration)) }
{
    if target_of(records, p).is_some() {
        return 0;
    }
    let own = bits_of(records, values, p);
    let words = words_of(records, values, p);
    storage_words(own, words)
}

// Writes the first word of each of the m declarations.
pub fn first_words(records: &[u8], values: &[u8], decls: &[u8], m: usize, firsts: &mut [u8])
    requires { Scene records.now values.now decls.now m × (2 * m ≤ length firsts.old) }
    ensures { (s : Scene records.now values.now decls.now m) → FirstsHold firsts.new (table_of s) m }
{
    let mut total: u64 = 0;
    for k in 0..m {
        put16(firsts, k, total as u16);
        let p = get16(decls, k) as usize;
        total += words_in(records, values, p);
    }
}
