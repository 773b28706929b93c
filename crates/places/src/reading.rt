// What stands behind the name of an access: its subscript, and the names of its bits. At a name that stands for no access anything is read, and nothing
// is claimed.
ghost use Rattle.std.specs.Prelude.{◌≡◌, List, ℕ, ◌+◌, ◌<◌, ◌≤◌, drop};
ghost use Rattle.places.specs.Valued.{Valued};
ghost use Rattle.places.specs.Brackets.{opened, past};
ghost use Rattle.places.specs.Given.{GivenNames};

use records::fields::{kind_at, value_at};
use rules::kinds::{COLON, LBRA, LESS, RBRA};
use table::views::Names;

// How many brackets are open behind a token, with d before it.
fn opened(d: usize, kind: u8) -> usize
    requires { d < 65536 }
    ensures { (result ≡ opened d kind) × (result ≤ d + 1) }
{
    if kind == LBRA {
        return d + 1;
    }
    if kind == RBRA {
        return d.saturating_sub(1);
    }
    d
}

// The first token behind the `]` of the `[` before p.
pub fn behind_subscript(records: &[u8], n: usize, p: usize) -> usize
    requires { ((values : List ℕ) × Valued records.now values n) × (p ≤ n) }
    ensures { (result ≤ n) × ((values : List ℕ) (v : Valued records.now values n) → drop result v.tokens ≡ past 1 (drop p v.tokens)) }
{
    let mut d: usize = 1;
    for i in p..n {
        if d == 0 {
            return i;
        }
        d = opened(d, kind_at(records, i));
    }
    n
}

// The names of the bits at p, of an access.
pub fn given_names(records: &[u8], values: &[u8], n: usize, p: usize) -> Names
    requires { Valued records.now values.now n × (p ≤ n) }
    ensures { (v : Valued records.now values.now n) → GivenNames v.tokens p result }
{
    if n < p + 4 {
        return Names::Missing;
    }
    if kind_at(records, p) != LESS {
        return Names::Missing;
    }
    let left = value_at(values, p + 1);
    if kind_at(records, p + 2) != COLON {
        return Names::Span(left, left);
    }
    Names::Span(left, value_at(values, p + 3))
}
