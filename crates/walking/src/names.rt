// What a name at the start of an action does.
ghost use Rattle.std.specs.Prelude.{◌≡◌, List, ℕ, ◌+◌};
ghost use Rattle.rules.specs.Text.Tokens.{Name, kind_no};
ghost use Rattle.records.specs.Holds.{kind_byte};
ghost use Rattle.walking.specs.Walking.{Acting, Named, Activates};

use cells::get64;
use counting::counts::{Nest, count};
use reading::kinds::kind_of;
use reading::names::index_of;
use rules::kinds::LPAR;

// The activation of the name i: its own step, and those of its body.
fn activate(records: &[u8], table: &[u8], m: usize, n: usize, i: usize, s: Nest) -> Nest
    requires { ((room : List ℕ) × Acting records.now table.now room m n i s) × (kind_byte records.now i ≡ kind_no Name) }
    ensures { Activates records.now table.now m n i s result }
{
    let k = index_of(records, m, i);
    let inside = get64(table, k);
    count(s, 1 + inside)
}

// The name i.
pub fn name(
    records: &[u8],
    table: &[u8],
    m: usize,
    n: usize,
    i: usize,
    mode: usize,
    s: Nest,
) -> Nest
    requires { ((room : List ℕ) × Acting records.now table.now room m n i s) × (kind_byte records.now i ≡ kind_no Name) }
    ensures { Named records.now table.now m n i mode s result }
{
    if mode != 0 {
        return s;
    }
    if kind_of(records, n, i + 1) != LPAR {
        return s;
    }
    activate(records, table, m, n, i, s)
}
