// The words of a description that has no fault of the 30s.
ghost use Rattle.std.specs.Prelude.{◌≡◌, List, ℕ, ◌≤◌};
ghost use Rattle.rules.specs.Grammar.Trees.{Tokens, Description};
ghost use Rattle.rules.specs.Declarations.{declarations, total_words};
ghost use Rattle.rules.specs.Limits.{most_words};
ghost use Rattle.table.specs.Ready.{Ready};

use crate::faults::words_in;
use cells::get16;

// How many words the m declarations have together.
pub fn words(records: &[u8], values: &[u8], decls: &[u8], m: usize) -> usize
    requires { (text : List ℕ) × (ts : Tokens) × (d : Description) × Ready text records.now values.now decls.now ts d m }
    ensures { ((text : List ℕ) (ts : Tokens) (d : Description) → Ready text records.now values.now decls.now ts d m
        → result ≡ total_words (declarations d)) × (result ≤ most_words) }
{
    let mut total: usize = 0;
    for k in 0..m {
        let p = get16(decls, k) as usize;
        total += words_in(records, values, p);
    }
    total
}
