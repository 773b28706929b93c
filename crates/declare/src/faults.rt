// The refusals 30 to 33. Declarations are judged in their order: their places increase, so the first with a fault has the least one.
ghost use Rattle.std.specs.Prelude.{◌≡◌, List, ℕ, ◌≤◌};
ghost use Rattle.std.proofs.Math.Option.{some};
ghost use Rattle.rules.specs.Declarations.{declared_of, words_of, Target};
ghost use Rattle.rules.specs.Faults.Declared.{is_known, good_target, bad_mapping, faults30};
ghost use Rattle.rules.specs.Limits.{most_words};
ghost use Rattle.table.specs.Views.{View};
ghost use Rattle.keys.specs.Keys.{least_key};
ghost use Rattle.declare.specs.Faults.{is_large, own_number};
ghost use Rattle.declare.specs.Listed.{Listed, outer_of, table_of, known_of, Chosen, chosen_of, SmallView};

use cells::get16;
use keys::{NO_KEY, fault_key};
use records::fields::{inside_at, place_at};
use records::words::same_word;
use rules::limits::{MOST_DECLARATIONS, MOST_WORDS};
use spans::{far, fits, is_missing, large_bits, storage_words};
use table::views::{bits_of, target_bits, target_of, words_of};

// Whether the outer name or an earlier declaration has the name of the k-th.
fn declared_before(text: &[u8], records: &[u8], decls: &[u8], k: usize) -> bool
    requires { (values : List ℕ) × (m : ℕ) × Chosen text.now records.now values decls.now m k }
    ensures { (values : List ℕ) (m : ℕ) (v : Chosen text.now records.now values decls.now m k)
        → result ≡ is_known (chosen_of v).name.word (known_of v.listed k) }
{
    let p = get16(decls, k) as usize;
    same_word(text, records, 0, p) || inside_at(records, p) < k
}

// Whether the declaration named p has too many bits, or too large a name of a bit or a word.
fn too_large(records: &[u8], values: &[u8], p: usize) -> bool
    requires { View records.now values.now p }
    ensures { (v : View records.now values.now p) → result ≡ is_large (declared_of v.declaration) }
{
    if large_bits(bits_of(records, values, p)) {
        return true;
    }
    far(words_of(records, values, p))
}

// How many words the declaration named p adds.
pub fn words_in(records: &[u8], values: &[u8], p: usize) -> usize
    requires { SmallView records.now values.now p }
    ensures { ((v : View records.now values.now p) → result ≡ words_of (declared_of v.declaration)) × (result ≤ most_words) }
{
    if target_of(records, p).is_some() {
        return 0;
    }
    storage_words(bits_of(records, values, p), words_of(records, values, p))
}

// Whether the mapping named p may lie on the declaration named q.
fn good_target(records: &[u8], values: &[u8], p: usize, q: usize) -> bool
    requires { View records.now values.now p × View records.now values.now q }
    ensures { (v : View records.now values.now p) (w : View records.now values.now q) (t : Target)
        → (declared_of v.declaration).target ≡ some t → result ≡ good_target (declared_of v.declaration).bits t.bits (some (declared_of w.declaration)) }
{
    if !is_missing(words_of(records, values, q)) {
        return false;
    }
    if target_of(records, q).is_some() {
        return false;
    }
    fits(
        bits_of(records, values, q),
        bits_of(records, values, p),
        target_bits(records, values, p),
    )
}

// Whether the k-th declaration is a mapping that may not lie where it does.
fn bad_mapping(text: &[u8], records: &[u8], values: &[u8], decls: &[u8], m: usize, k: usize) -> bool
    requires { Chosen text.now records.now values.now decls.now m k }
    ensures { (v : Chosen text.now records.now values.now decls.now m k)
        → result ≡ bad_mapping (outer_of v.listed) (table_of v.listed) (chosen_of v) (chosen_of v).target }
{
    let p = get16(decls, k) as usize;
    let Some(t) = target_of(records, p) else {
        return false;
    };
    if same_word(text, records, 0, t) {
        return true;
    }
    let j = inside_at(records, t);
    if m <= j {
        return true;
    }
    let q = get16(decls, j) as usize;
    !good_target(records, values, p, q)
}

// The least number of the k-th declaration's faults, with so many words before it; 0 where it has none.
fn fault_at(
    text: &[u8],
    records: &[u8],
    values: &[u8],
    decls: &[u8],
    m: usize,
    k: usize,
    words: usize,
) -> u32
    requires chosen { Chosen text.now records.now values.now decls.now m k }
    requires words_le_most_words { words ≤ most_words }
    ensures { (v : Chosen text.now records.now values.now decls.now m k)
        → result ≡ own_number (outer_of v.listed) (table_of v.listed) (known_of v.listed k) k words (chosen_of v) }
{
    let p = get16(decls, k) as usize;
    if declared_before(text, records, decls, k) {
        return 30;
    }
    if too_large(records, values, p) {
        return 31;
    }
    if MOST_DECLARATIONS <= k {
        return 32;
    }
    if MOST_WORDS < words + words_in(records, values, p) {
        return 32;
    }
    if bad_mapping(text, records, values, decls, m, k) {
        return 33;
    }
    0
}

// The key of the least fault of the 30s.
pub fn fault30(text: &[u8], records: &[u8], values: &[u8], decls: &[u8], m: usize) -> u32
    requires { Listed text.now records.now values.now decls.now m }
    ensures { (v : Listed text.now records.now values.now decls.now m)
        → result ≡ least_key (faults30 (outer_of v) (table_of v)) }
{
    let mut words: usize = 0;
    for k in 0..m {
        let p = get16(decls, k) as usize;
        let number = fault_at(text, records, values, decls, m, k, words);
        if number != 0 {
            return fault_key(number, place_at(records, p));
        }
        words += words_in(records, values, p);
    }
    NO_KEY
}
