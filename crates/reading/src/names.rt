// What the names of a body mean.
ghost use Rattle.std.specs.Prelude.{◌≡◌, List, ℕ, ◌+◌, ◌*◌, ◌<◌, ◌≤◌, length};
ghost use Rattle.rules.specs.Text.Tokens.{Name, kind_no};
ghost use Rattle.rules.specs.Limits.{most_declarations};
ghost use Rattle.rules.specs.Whole.Sets.{owner};
ghost use Rattle.records.specs.Holds.{kind_byte};
ghost use Rattle.records.specs.Words.{word_at};
ghost use Rattle.reading.specs.Reading.{Reading, table_of};
ghost use Rattle.reading.specs.Names.{Owned};
ghost use Rattle.reading.specs.Indexes.{undeclared, index_of};

use cells::get16;
use records::fields::{inside_at, kind_at};
use rules::kinds::BECOMES;
use rules::limits::MOST_DECLARATIONS;
use table::views::target_of;

// No carrier: above every number of a declaration.
const NONE: usize = 65535;

// The storage carrier under the name i, of which a mapping has its target's; from 256 on there is none.
pub fn carrier(records: &[u8], decls: &[u8], m: usize, n: usize, i: usize) -> usize
    requires { Reading records.now decls.now m n × ((i < n) × (kind_byte records.now i ≡ kind_no Name)) }
    ensures { (v : Reading records.now decls.now m n) → Owned (owner (table_of v) (word_at v.tokens i)) result }
{
    let k = inside_at(records, i);
    if m <= k {
        return NONE;
    }
    let p = get16(decls, k) as usize;
    if let Some(target) = target_of(records, p) {
        return inside_at(records, target);
    }
    if kind_at(records, p + 1) == BECOMES {
        return NONE;
    }
    k
}

// Where a table has what is known of names that are not declared.
pub const UNDECLARED: usize = MOST_DECLARATIONS;

// Where a table has what is known of the name i.
pub fn index_of(records: &[u8], m: usize, i: usize) -> usize
    requires { (8 * i + 8 ≤ length records.now) × (m ≤ most_declarations) }
    ensures { (result ≤ undeclared) × ((decls : List ℕ) (n : ℕ) (v : Reading records.now decls m n) → i < n → kind_byte records.now i ≡ kind_no Name
        → result ≡ index_of (table_of v) (word_at v.tokens i)) }
{
    let k = inside_at(records, i);
    if k < m {
        return k;
    }
    UNDECLARED
}
