// 61 of the joint table: the first text's words over the front, then the second's that it does not share, behind them in their order.
ghost use Rattle.std.specs.Prelude.{◌≡◌, ◌*◌, ◌≤◌, length};
ghost use Rattle.rules.specs.Declarations.{Table, declared_of, words_of};
ghost use Rattle.rules.specs.Limits.{most_words};
ghost use Rattle.rules.specs.Pair.{joint};
ghost use Rattle.declare.specs.Listed.{SmallView};
ghost use Rattle.table.specs.Views.{View};
ghost use Rattle.table.specs.Ready.{Scene, table_of};
ghost use Rattle.pair_tables.specs.Lengths.{own_words, Carried, Fits, long_behind, long_joint};

use cells::get16;
use declare::faults::words_in;
use rules::refusals::Refusal;
use spans::last_of;
use starts::{first_long, start};
use table::views::bits_of;

// The words that the declaration named p adds to the table, in which it begins at `first`: none where that is among the words of the first text.
fn own_words(records: &[u8], values: &[u8], p: usize, words0: usize, first: usize) -> usize
    requires { SmallView records.now values.now p }
    ensures { ((v : View records.now values.now p) → result ≡ own_words words0 first (words_of (declared_of v.declaration)))
        × (result ≤ most_words) }
{
    if first < words0 {
        return 0;
    }
    words_in(records, values, p)
}

// Whether no word of the second text's own has a bit above its length.
fn start_behind(
    records1: &[u8],
    values1: &[u8],
    decls1: &[u8],
    m1: usize,
    firsts: &[u8],
    words0: usize,
    carriers: &[u8],
) -> Result<(), Refusal>
    requires { (first : Table) × (w : Scene records1.now values1.now decls1.now m1) × Carried first (table_of w) firsts.now words0 carriers.now }
    ensures { (first : Table) (w : Scene records1.now values1.now decls1.now m1)
        → Carried first (table_of w) firsts.now words0 carriers.now → Fits (long_behind first (table_of w) carriers.now) result }
{
    let mut free = words0;
    for k in 0..m1 {
        let p = get16(decls1, k) as usize;
        let first = get16(firsts, k) as usize;
        let end = free + own_words(records1, values1, p, words0, first);
        let last = last_of(bits_of(records1, values1, p));
        let long = first_long(carriers, free, end, last);
        if long < end {
            return Err(Refusal {
                number: 61,
                place: 8 * long,
            });
        }
        free = end;
    }
    Ok(())
}

// Whether no word of the joint table has a bit above its length.
pub fn start_joint(
    records0: &[u8],
    values0: &[u8],
    decls0: &[u8],
    m0: usize,
    records1: &[u8],
    values1: &[u8],
    decls1: &[u8],
    m1: usize,
    firsts: &[u8],
    words0: usize,
    carriers: &[u8],
) -> Result<(), Refusal>
    requires { (v : Scene records0.now values0.now decls0.now m0) × (w : Scene records1.now values1.now decls1.now m1)
        × Carried (table_of v) (table_of w) firsts.now words0 carriers.now }
    ensures { (v : Scene records0.now values0.now decls0.now m0)
        (w : Scene records1.now values1.now decls1.now m1)
        → Carried (table_of v) (table_of w) firsts.now words0 carriers.now
        → Fits (long_joint (table_of v) (table_of w) carriers.now) result }
{
    let size = 8 * words0;
    start(records0, values0, decls0, m0, &carriers[..size])?;
    start_behind(records1, values1, decls1, m1, firsts, words0, carriers)
}
