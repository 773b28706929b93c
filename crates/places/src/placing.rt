// Each name's value cell takes the place of the access that it stands for.
ghost use Rattle.std.specs.Prelude.{List, ℕ, ◌*◌, ◌+◌, ◌<◌, ◌≤◌, length};
ghost use Rattle.places.specs.Valued.{Valued};
ghost use Rattle.places.specs.Placing.{BehindIndex, Described, Placing, NameIn, PlacedBy, PlacedIn, AllPlaced};

use crate::bases::{base_of, cell_of};
use crate::counting::first_words;
use crate::reading::{behind_subscript, given_names};
use cells::put64;
use records::fields::{inside_at, kind_at};
use rules::kinds::{LBRA, NAME};

// The first token behind the subscript at p, if there is one.
fn behind_index(records: &[u8], n: usize, p: usize) -> usize
    requires { ((values : List ℕ) × Valued records.now values n) × (p ≤ n) }
    ensures { (result ≤ n) × ((values : List ℕ) (v : Valued records.now values n) → BehindIndex v.tokens p result) }
{
    if p == n {
        return p;
    }
    if kind_at(records, p) != LBRA {
        return p;
    }
    behind_subscript(records, n, p + 1)
}

// The place of the access that the name i stands for; at any other name some number.
fn access_cell(
    records: &[u8],
    values: &[u8],
    decls: &[u8],
    firsts: &[u8],
    n: usize,
    m: usize,
    i: usize,
) -> u64
    requires { NameIn records.now values.now decls.now firsts.now n m i }
    ensures { (v : NameIn records.now values.now decls.now firsts.now n m i) → PlacedBy v result }
{
    let k = inside_at(records, i);
    if m <= k {
        return 0;
    }
    let base = base_of(records, values, decls, firsts, m, k);
    let p = behind_index(records, n, i + 1);
    let given = given_names(records, values, n, p);
    cell_of(base, given)
}

// The token i, if it is a name, behind those before it.
fn place_one(
    records: &[u8],
    values: &mut [u8],
    decls: &[u8],
    firsts: &[u8],
    n: usize,
    m: usize,
    i: usize,
)
    requires { Placing records.now values.old decls.now firsts.now n m × (i < n) }
    ensures { (v : Placing records.now values.old decls.now firsts.now n m)
        → PlacedIn v values.old i → PlacedIn v values.new (i + 1) }
{
    if kind_at(records, i) != NAME {
        return;
    }
    let c = access_cell(records, values, decls, firsts, n, m, i);
    put64(values, i, c);
}

// All of the n tokens that are names. The buffer takes the first words of the m declarations.
pub fn place(records: &[u8], values: &mut [u8], decls: &[u8], n: usize, m: usize, firsts: &mut [u8])
    requires { Described records.now values.old decls.now n m × (2 * m ≤ length firsts.old) }
    ensures { (v : Described records.now values.old decls.now n m) → AllPlaced v values.new }
{
    first_words(records, values, decls, m, firsts);
    for i in 0..n {
        place_one(records, values, decls, firsts, n, m, i);
    }
}
