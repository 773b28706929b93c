// What a declaration of the second text meets in the first.
ghost use Rattle.std.specs.Prelude.{◌≡◌, true, List, ℕ};
ghost use Rattle.rules.specs.Declarations.{declared_of};
ghost use Rattle.rules.specs.Pair.{is_storage_of, same_storage};
ghost use Rattle.pair_tables.specs.Standing.{Stands, declared_by, DeclaredIn};
ghost use Rattle.pair_tables.specs.Meeting.{namesake, Meets};

use crate::shapes::{is_storage, same_shape};
use crate::words::same_words;
use cells::get16;

// Words of its own; words of its own, though storage of its name is there with other names; or those of the first text's declaration of this number.
#[derive(Clone, Copy)]
pub enum Met {
    Own,
    Clashing,
    Shared(usize),
}

// Whether the declaration named p of the first text is storage under the name q of the second, which is storage.
fn is_namesake(
    text0: &[u8],
    records0: &[u8],
    values0: &[u8],
    p: usize,
    text1: &[u8],
    records1: &[u8],
    q: usize,
) -> bool
    requires declared_in { DeclaredIn text0.now records0.now values0.now p }
    requires by_index { (values : List ℕ) × DeclaredIn text1.now records1.now values q }
    ensures { (values : List ℕ) (v : DeclaredIn text0.now records0.now values0.now p)
        (w : DeclaredIn text1.now records1.now values q) → is_storage_of (declared_of w.declaration) ≡ true
        → result ≡ same_storage (declared_of v.declaration) (declared_of w.declaration) }
{
    if !same_words(text0, records0, p, text1, records1, q) {
        return false;
    }
    is_storage(records0, values0, p)
}

// The number of the first text's declaration that is storage under the name q of the second, as that is; m0 where none is.
fn find_namesake(
    text0: &[u8],
    records0: &[u8],
    values0: &[u8],
    decls0: &[u8],
    m0: usize,
    text1: &[u8],
    records1: &[u8],
    values1: &[u8],
    q: usize,
) -> usize
    requires { Stands text0.now records0.now values0.now decls0.now m0 × DeclaredIn text1.now records1.now values1.now q }
    ensures { (v : Stands text0.now records0.now values0.now decls0.now m0)
        (w : DeclaredIn text1.now records1.now values1.now q) → result ≡ namesake (declared_by v) (declared_of w.declaration) }
{
    if !is_storage(records1, values1, q) {
        return m0;
    }
    for k in 0..m0 {
        let p = get16(decls0, k) as usize;
        if is_namesake(text0, records0, values0, p, text1, records1, q) {
            return k;
        }
    }
    m0
}

// What the declaration named q of the second text meets among the m0 declarations of the first.
pub fn meet(
    text0: &[u8],
    records0: &[u8],
    values0: &[u8],
    decls0: &[u8],
    m0: usize,
    text1: &[u8],
    records1: &[u8],
    values1: &[u8],
    q: usize,
) -> Met
    requires { Stands text0.now records0.now values0.now decls0.now m0 × DeclaredIn text1.now records1.now values1.now q }
    ensures { (v : Stands text0.now records0.now values0.now decls0.now m0)
        (w : DeclaredIn text1.now records1.now values1.now q) → Meets (declared_by v) (declared_of w.declaration) result }
{
    let i = find_namesake(
        text0, records0, values0, decls0, m0, text1, records1, values1, q,
    );
    if m0 <= i {
        return Met::Own;
    }
    let p = get16(decls0, i) as usize;
    if same_shape(records0, values0, p, records1, values1, q) {
        return Met::Shared(i);
    }
    Met::Clashing
}
