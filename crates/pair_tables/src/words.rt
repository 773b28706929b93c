// Whether names of two texts have the same word. Words are compared where they stand, with letters folded.
ghost use Rattle.std.specs.Prelude.{◌≡◌, ◌+◌, ◌≤◌, length};
ghost use Rattle.rules.specs.Text.Scan.{same_bytes};
ghost use Rattle.records.specs.Holds.{folded_at};
ghost use Rattle.pair_tables.specs.Words.{NameIn, word_in};

use classes::letters::upper;
use records::fields::{place_at, size_at};

// Whether n bytes of one text at a and of another at b are the same but for the case of letters.
fn same_runs(text0: &[u8], text1: &[u8], a: usize, b: usize, n: usize) -> bool
    requires { (a + n ≤ length text0.now) × (b + n ≤ length text1.now) }
    ensures { result ≡ same_bytes (folded_at text0.now a n) (folded_at text1.now b n) }
{
    for k in 0..n {
        let x = upper(text0[a + k]);
        let y = upper(text1[b + k]);
        if x != y {
            return false;
        }
    }
    true
}

// Whether the name i of one text and the name j of another have the same word.
pub fn same_words(
    text0: &[u8],
    records0: &[u8],
    i: usize,
    text1: &[u8],
    records1: &[u8],
    j: usize,
) -> bool
    requires { NameIn text0.now records0.now i × NameIn text1.now records1.now j }
    ensures { (v : NameIn text0.now records0.now i) (w : NameIn text1.now records1.now j)
        → result ≡ same_bytes (word_in v) (word_in w) }
{
    let n = size_at(records0, i);
    let m = size_at(records1, j);
    if n != m {
        return false;
    }
    same_runs(
        text0,
        text1,
        place_at(records0, i),
        place_at(records1, j),
        n as usize,
    )
}
