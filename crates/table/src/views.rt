// A declaration whose name is the token i, seen by tokens at fixed distances from it.
ghost use Rattle.std.specs.Prelude.{◌≡◌, List, ℕ, ◌+◌};
ghost use Rattle.rules.specs.Declarations.{declared_of, main_names};
ghost use Rattle.table.specs.Bits.{BitsView, bits_size};
ghost use Rattle.table.specs.Views.{View, words_size_of, given_part, behind, GivenAt, BodyAt, TargetAt, MainAt};
ghost use Rattle.table.specs.Shown.{shown_words, shown_bits, shown_target};

use records::fields::{kind_at, value_at};
use rules::kinds::{BECOMES, BEGIN, COLON, GREATER, LBRA, LESS, MAIN};

// Names of words or bits: none; one bit without a name; from left to right.
#[derive(Clone, Copy)]
pub enum Names {
    Missing,
    Unnamed,
    Span(u64, u64),
}

// How many tokens the bits at p take: nothing, `<>`, `<n>` or `<n:n>`.
pub fn bits_size(records: &[u8], p: usize) -> usize
    requires { (values : List ℕ) × BitsView records.now values p }
    ensures { (values : List ℕ) (v : BitsView records.now values p) → result ≡ bits_size v.bits }
{
    if kind_at(records, p) != LESS {
        return 0;
    }
    if kind_at(records, p + 1) == GREATER {
        return 2;
    }
    if kind_at(records, p + 2) == COLON {
        return 5;
    }
    3
}

// The names of the bits at p.
pub fn names_at(records: &[u8], values: &[u8], p: usize) -> Names
    requires { BitsView records.now values.now p }
    ensures { (v : BitsView records.now values.now p) → result ≡ shown_bits (main_names v.bits) }
{
    let size = bits_size(records, p);
    match size {
        0 => Names::Missing,
        2 => Names::Unnamed,
        3 => {
            let only = value_at(values, p + 1);
            Names::Span(only, only)
        }
        _ => Names::Span(value_at(values, p + 1), value_at(values, p + 3)),
    }
}

// How many tokens the words take: nothing or `[n:n]`.
fn words_size(records: &[u8], i: usize) -> usize
    requires { (values : List ℕ) × View records.now values i }
    ensures { (values : List ℕ) (v : View records.now values i) → result ≡ words_size_of v.declaration }
{
    if kind_at(records, i + 1) == LBRA {
        return 5;
    }
    0
}

// The names of the words.
pub fn words_of(records: &[u8], values: &[u8], i: usize) -> Names
    requires { View records.now values.now i }
    ensures { (v : View records.now values.now i) → result ≡ shown_words (declared_of v.declaration).words }
{
    let size = words_size(records, i);
    if size == 0 {
        return Names::Missing;
    }
    Names::Span(value_at(values, i + 2), value_at(values, i + 4))
}

// The names of the bits of its own.
pub fn bits_of(records: &[u8], values: &[u8], i: usize) -> Names
    requires { View records.now values.now i }
    ensures { (v : View records.now values.now i) → result ≡ shown_bits (declared_of v.declaration).bits }
{
    let size = words_size(records, i);
    names_at(records, values, i + 1 + size)
}

// The number of the token behind `:=`.
fn given_at(records: &[u8], i: usize) -> Option<usize>
    requires { (values : List ℕ) × View records.now values i }
    ensures { (values : List ℕ) (v : View records.now values i) → GivenAt v.tokens result (given_part v.declaration) (behind v) }
{
    let p = i + 1 + words_size(records, i);
    let q = p + bits_size(records, p);
    if kind_at(records, q) == BECOMES {
        return Some(q + 1);
    }
    None
}

// The number of the body's BEGIN.
pub fn body_of(records: &[u8], i: usize) -> Option<usize>
    requires { (values : List ℕ) × View records.now values i }
    ensures { (values : List ℕ) (v : View records.now values i) → BodyAt v.tokens result (declared_of v.declaration).body }
{
    let g = given_at(records, i)?;
    if kind_at(records, g) == BEGIN {
        return Some(g);
    }
    None
}

// The number of the name that a mapping lies on.
pub fn target_of(records: &[u8], i: usize) -> Option<usize>
    requires { (values : List ℕ) × View records.now values i }
    ensures { (values : List ℕ) (v : View records.now values i) → TargetAt v.tokens result (declared_of v.declaration).target }
{
    let g = given_at(records, i)?;
    if kind_at(records, g) == BEGIN {
        return None;
    }
    Some(g)
}

// The names of the bits that a mapping lies on.
pub fn target_bits(records: &[u8], values: &[u8], i: usize) -> Names
    requires { View records.now values.now i }
    ensures { (v : View records.now values.now i) → result ≡ shown_target (declared_of v.declaration).target }
{
    match target_of(records, i) {
        None => Names::Missing,
        Some(t) => names_at(records, values, t + 1),
    }
}

// The number of the MAIN before the name.
pub fn main_of(records: &[u8], i: usize) -> Option<usize>
    requires { (values : List ℕ) × View records.now values i }
    ensures { (values : List ℕ) (v : View records.now values i) → MainAt v.tokens result (declared_of v.declaration).mainly }
{
    let before = i - 1;
    if kind_at(records, before) == MAIN {
        return Some(before);
    }
    None
}
