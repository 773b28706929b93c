// Where the second description's words lie in the table: the number of the table's word for each of them, two bytes each.
ghost use Rattle.std.specs.Prelude.{List, ℕ, ◌+◌, ◌*◌, ◌<◌, ◌≤◌, length};
ghost use Rattle.cells.specs.Cells.{cell};
ghost use Rattle.rules.specs.Limits.{most_words};
ghost use Rattle.rules.specs.Grammar.Trees.{Tokens, Description};
ghost use Rattle.rules.specs.Declarations.{declarations};
ghost use Rattle.table.specs.Ready.{Ready};
ghost use Rattle.pair_turns.specs.Views.{CountedUp, Filled};

use cells::{get16, put16};
use declare::faults::words_in;

// The numbers from `first` up into n cells from `at` on.
fn count_up(view: &mut [u8], at: usize, n: usize, first: usize)
    requires { (2 * (at + n) ≤ length view.old) × (first + n ≤ 65536) }
    ensures { CountedUp view.old view.new at n first }
{
    for j in 0..n {
        put16(view, at + j, (first + j) as u16);
    }
}

// The numbers of all words of the m declarations, whose first words stand in `firsts`. Returns how many there are.
pub fn fill_view(
    records: &[u8],
    values: &[u8],
    decls: &[u8],
    m: usize,
    firsts: &[u8],
    view: &mut [u8],
) -> usize
    requires by_index { (text : List ℕ) × (ts : Tokens) × (d : Description) × Ready text records.now values.now decls.now ts d m }
    requires m_in_bounds { (2 * m ≤ length firsts.now) × (2 * most_words ≤ length view.old) × ((k : ℕ) → k < m → cell 2 firsts.now k ≤ most_words) }
    ensures { (text : List ℕ) (ts : Tokens) (d : Description) → Ready text records.now values.now decls.now ts d m
        → Filled (declarations d) firsts.now m view.new result }
{
    let mut at: usize = 0;
    for k in 0..m {
        let p = get16(decls, k) as usize;
        let n = words_in(records, values, p);
        count_up(view, at, n, get16(firsts, k) as usize);
        at += n;
    }
    at
}
