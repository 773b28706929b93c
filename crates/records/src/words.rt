// Whether two names have the same word. Words are compared in the text itself, with letters folded.
ghost use Rattle.std.specs.Prelude.{◌≡◌, ◌+◌, ◌≤◌, length};
ghost use Rattle.rules.specs.Text.Scan.{same_bytes};
ghost use Rattle.records.specs.Holds.{folded_at};
ghost use Rattle.records.specs.Words.{TwoNames, same_words};

use crate::fields::{place_at, size_at};
use classes::letters::upper;

// Whether n bytes at a and at b are the same but for the case of letters.
fn same_run(text: &[u8], a: usize, b: usize, n: usize) -> bool
    requires { (a + n ≤ length text.now) × (b + n ≤ length text.now) }
    ensures { result ≡ same_bytes (folded_at text.now a n) (folded_at text.now b n) }
{
    for k in 0..n {
        let x = upper(text[a + k]);
        let y = upper(text[b + k]);
        if x != y {
            return false;
        }
    }
    true
}

// Whether the names i and j have the same word.
pub fn same_word(text: &[u8], records: &[u8], i: usize, j: usize) -> bool
    requires { TwoNames text.now records.now i j }
    ensures { (v : TwoNames text.now records.now i j) → result ≡ same_words v }
{
    let n = size_at(records, i);
    let m = size_at(records, j);
    if n != m {
        return false;
    }
    same_run(text, place_at(records, i), place_at(records, j), n as usize)
}
