// The letters of a word where it stands in the text: its hash, and its bits.
ghost use Rattle.std.specs.Prelude.{◌≡◌, ◌+◌, ◌-◌, ◌/◌, ◌<◌, ◌≤◌, length, get_or};
ghost use Rattle.records.specs.Holds.{folded_at};
ghost use Rattle.spelling.specs.Trees.{hash_of, bit_of};
ghost use Rattle.room.specs.Spelling.{heads};

use classes::letters::upper;
use room::spelling::HEADS;

// The letter k of the n at p, in upper case; 0 behind them.
#[tactic(auto, using(crate::specs::Laws::Letters::letter_at, crate::specs::Laws::Letters::no_letter))]
fn letter(text: &[u8], p: usize, n: usize, k: usize) -> u8
    requires { p + n ≤ length text.now }
    ensures { result ≡ get_or (folded_at text.now p n) k 0 }
{
    if k < n { upper(text[p + k]) } else { 0 }
}

// The head for the n letters at p.
#[tactic(auto, using(crate::specs::Laws::Letters::letters), unfolding(crate::specs::Trees::hash_to))]
pub fn hash_of(text: &[u8], p: usize, n: usize) -> usize
    requires { p + n ≤ length text.now }
    ensures { (result ≡ hash_of (folded_at text.now p n)) × (result < heads) }
{
    let mut h: usize = 0;
    for k in 0..n {
        h = (h * 33 + letter(text, p, n, k) as usize) % HEADS;
    }
    h
}

// Which of n letters has the bit d.
fn letter_with(n: usize, d: usize) -> usize
    ensures { result ≡ n - (d / 6 + 1) }
{
    n.saturating_sub(d / 6 + 1)
}

// The bit d of the n letters at p.
#[tactic(auto, using(crate::specs::Laws::Letters::letters))]
pub fn bit_of(text: &[u8], p: usize, n: usize, d: usize) -> usize
    requires { p + n ≤ length text.now }
    ensures { (result ≡ bit_of (folded_at text.now p n) d) × (result < 2) }
{
    ((letter(text, p, n, letter_with(n, d)) as usize) >> (d % 6)) % 2
}
