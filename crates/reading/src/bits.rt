// Sets of declarations, which are at most 256, as four words by value.
ghost use Rattle.std.specs.Prelude.{◌≡◌, ◌||◌, true, false, List, ℕ, ◌<◌, eqb};
ghost use Rattle.rules.specs.Whole.Sets.{member, meet};
ghost use Rattle.reading.specs.Bits.{holds, Common};

#[derive(Clone, Copy)]
pub struct Set {
    pub w: [u64; 4],
}

pub fn empty() -> Set
    ensures { (k : ℕ) → holds result.w k ≡ false }
{
    Set { w: [0; 4] }
}

// Whether no number is in it.
pub fn is_empty(s: Set) -> bool
    ensures { result ≡ true → (k : ℕ) → holds s.w k ≡ false }
{
    if s.w[0] != 0 {
        return false;
    }
    if s.w[1] != 0 {
        return false;
    }
    if s.w[2] != 0 {
        return false;
    }
    if s.w[3] != 0 {
        return false;
    }
    true
}

pub fn has(s: Set, i: usize) -> bool
    requires { i < 256 }
    ensures { result ≡ holds s.w i }
{
    let k = i / 64;
    (s.w[k] >> (i % 64)) % 2 == 1
}

// The set of one number.
pub fn only(i: usize) -> Set
    requires { i < 256 }
    ensures { (k : ℕ) → holds result.w k ≡ eqb k i }
{
    let k = i / 64;
    let mut w = [0u64; 4];
    w[k] = 1 << (i % 64);
    Set { w }
}

pub fn union(a: Set, b: Set) -> Set
    ensures { (k : ℕ) → holds result.w k ≡ (holds a.w k || holds b.w k) }
{
    Set {
        w: [
            a.w[0] | b.w[0],
            a.w[1] | b.w[1],
            a.w[2] | b.w[2],
            a.w[3] | b.w[3],
        ],
    }
}

// Whether two words have a bit in common.
fn common(a: u64, b: u64) -> bool
    ensures { Common result a b }
{
    if a & b != 0 {
        return true;
    }
    false
}

// Whether two sets have a number in common.
pub fn meets(a: Set, b: Set) -> bool
    ensures { (xs ys : List ℕ) → ((k : ℕ) → holds a.w k ≡ member k xs) → ((k : ℕ) → holds b.w k ≡ member k ys) → result ≡ meet xs ys }
{
    if common(a.w[0], b.w[0]) {
        return true;
    }
    if common(a.w[1], b.w[1]) {
        return true;
    }
    if common(a.w[2], b.w[2]) {
        return true;
    }
    if common(a.w[3], b.w[3]) {
        return true;
    }
    false
}
