// Whether declarations are storage, and whether two have the same names of words and bits in the same order.
ghost use Rattle.std.specs.Prelude.{◌≡◌};
ghost use Rattle.rules.specs.Declarations.{declared_of};
ghost use Rattle.rules.specs.Pair.{is_storage_of, same_shape};
ghost use Rattle.table.specs.Views.{View};
ghost use Rattle.pair_tables.specs.Shapes.{unnamed_shown, span_shown, same_shown};

use spans::is_missing;
use table::views::{Names, bits_of, target_of, words_of};

// Whether the declaration named p is storage: it has bits and is no mapping.
pub fn is_storage(records: &[u8], values: &[u8], p: usize) -> bool
    requires { View records.now values.now p }
    ensures { (v : View records.now values.now p) → result ≡ is_storage_of (declared_of v.declaration) }
{
    match target_of(records, p) {
        Some(_) => false,
        None => !is_missing(bits_of(records, values, p)),
    }
}

fn is_unnamed(a: Names) -> bool
    ensures { result ≡ unnamed_shown a }
{
    match a {
        Names::Unnamed => true,
        Names::Missing => false,
        Names::Span(_, _) => false,
    }
}

// Whether names run from `left` to `right`.
fn is_span(a: Names, left: u64, right: u64) -> bool
    ensures { result ≡ span_shown a left right }
{
    match a {
        Names::Span(l, r) => {
            if l != left {
                return false;
            }
            r == right
        }
        Names::Missing => false,
        Names::Unnamed => false,
    }
}

fn same_names(a: Names, b: Names) -> bool
    ensures { result ≡ same_shown a b }
{
    match b {
        Names::Missing => is_missing(a),
        Names::Unnamed => is_unnamed(a),
        Names::Span(left, right) => is_span(a, left, right),
    }
}

// Whether the declarations named p in one table and q in another have the same names of words and bits.
pub fn same_shape(
    records0: &[u8],
    values0: &[u8],
    p: usize,
    records1: &[u8],
    values1: &[u8],
    q: usize,
) -> bool
    requires { View records0.now values0.now p × View records1.now values1.now q }
    ensures { (v : View records0.now values0.now p) (w : View records1.now values1.now q)
        → result ≡ same_shape (declared_of v.declaration) (declared_of w.declaration) }
{
    if !same_names(
        words_of(records0, values0, p),
        words_of(records1, values1, q),
    ) {
        return false;
    }
    same_names(bits_of(records0, values0, p), bits_of(records1, values1, q))
}
