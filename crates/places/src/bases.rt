// What the name of a declaration reaches, and the place of an access to it in one number.
ghost use Rattle.std.specs.Prelude.{◌≡◌, ◌+◌, ◌*◌, ◌<◌};
ghost use Rattle.std.proofs.Math.Option.{Option, some};
ghost use Rattle.rules.specs.Declarations as rules;
ghost use Rattle.rules.specs.Declarations.{Reach, reach_number};
ghost use Rattle.table.specs.Ready.{table_of};
ghost use Rattle.table.specs.Shown.{shown_words};
ghost use Rattle.promise.specs.Accesses.{left_name, right_name};
ghost use Rattle.places.specs.Packed.{packed, Fits};
ghost use Rattle.places.specs.Bases.{LowUnder, BaseShows, CellShows, BaseAt, MappingAt, LiesShown};

use crate::spans::{how_many, low_bit, own_count};
use cells::get16;
use records::fields::inside_at;
use table::views::{Names, bits_of, target_bits, target_of, words_of};

// The first word, the names of the words (0 without), the lowest bit, and the names of the bits.
#[derive(Clone, Copy)]
pub struct Base {
    pub first: u64,
    pub left: u64,
    pub right: u64,
    pub low: u64,
    pub own: Names,
}

// Where a mapping lies: the first word of its carrier, and the lowest bit.
#[derive(Clone, Copy)]
pub struct Lies {
    pub first: u64,
    pub low: u64,
}

// The place of an access in one number.
fn pack(base: Base, low: u64, bits: u64) -> u64
    ensures { Fits base.first low bits base.left base.right → result ≡ packed base.first low bits base.left base.right }
{
    let words = base.left % 65536 + 65536 * (base.right % 65536);
    let span = low % 256 + 256 * (bits % 256);
    base.first % 65536 + 65536 * (span + 65536 * words)
}

// The same of the bits with the given names, all if there are none.
pub fn cell_of(base: Base, given: Names) -> u64
    ensures { CellShows base given result }
{
    let own = base.own;
    match given {
        Names::Missing => pack(base, base.low, own_count(own)),
        Names::Unnamed => 0,
        Names::Span(l, r) => {
            let low = base.low % 256 + low_bit(own, r) % 256;
            pack(base, low, how_many(l, r))
        }
    }
}

// The lowest of the bits `on`, among those of a declaration.
fn low_under(own: Names, on: Names) -> u64
    ensures { LowUnder own on result }
{
    match on {
        Names::Missing | Names::Unnamed => 0,
        Names::Span(_, r) => low_bit(own, r),
    }
}

// Where the mapping whose name is the token p lies, whose target's name is the token t.
fn lies_on(
    records: &[u8],
    values: &[u8],
    decls: &[u8],
    firsts: &[u8],
    m: usize,
    p: usize,
    t: usize,
) -> Lies
    requires { MappingAt records.now values.now decls.now firsts.now m p t }
    ensures { (v : MappingAt records.now values.now decls.now firsts.now m p t) → LiesShown v result }
{
    let o = inside_at(records, t);
    if m <= o {
        return Lies { first: 0, low: 0 };
    }
    let q = get16(decls, o) as usize;
    let under = bits_of(records, values, q);
    let on = target_bits(records, values, p);
    let low = low_under(under, on);
    Lies {
        first: get16(firsts, o) as u64,
        low,
    }
}

// A carrier with these words and bits.
fn storage(first: u64, words: Names, own: Names) -> Base
    ensures { (w : Option rules.Names) → words ≡ shown_words w
        → (result.first ≡ first) × (result.left ≡ left_name w) × (result.right ≡ right_name w) × (result.low ≡ 0) × (result.own ≡ own) }
{
    match words {
        Names::Missing | Names::Unnamed => Base {
            first,
            left: 0,
            right: 0,
            low: 0,
            own,
        },
        Names::Span(left, right) => Base {
            first,
            left,
            right,
            low: 0,
            own,
        },
    }
}

// What the declaration k reaches.
pub fn base_of(
    records: &[u8],
    values: &[u8],
    decls: &[u8],
    firsts: &[u8],
    m: usize,
    k: usize,
) -> Base
    requires { BaseAt records.now values.now decls.now firsts.now m k }
    ensures { (v : BaseAt records.now values.now decls.now firsts.now m k) (r : Reach)
        → reach_number (table_of v.scene) (some k) ≡ some r → BaseShows result r }
{
    let p = get16(decls, k) as usize;
    let own = bits_of(records, values, p);
    let Some(t) = target_of(records, p) else {
        let words = words_of(records, values, p);
        return storage(get16(firsts, k) as u64, words, own);
    };
    let on = lies_on(records, values, decls, firsts, m, p, t);
    Base {
        first: on.first,
        left: 0,
        right: 0,
        low: on.low,
        own,
    }
}
