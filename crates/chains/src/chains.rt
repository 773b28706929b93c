// Chains of activations, by levels: each level is one pass over the bodies.
ghost use Rattle.std.specs.Prelude.{◌≡◌, ◌&&◌, ◌||◌, false, ℕ, ◌<◌, eqb, ltb, drop};
ghost use Rattle.std.proofs.Math.ListN.{get_elem?};
ghost use Rattle.std.proofs.Math.Option.{some};
ghost use Rattle.rules.specs.Text.Tokens.{Name, kind_no};
ghost use Rattle.rules.specs.Declarations.{Declared};
ghost use Rattle.rules.specs.Faults.Fault.{when};
ghost use Rattle.rules.specs.Faults.Whole.{chains};
ghost use Rattle.keys.specs.Keys.{least_number_key};
ghost use Rattle.rules.specs.Whole.Sets.{any_name};
ghost use Rattle.rules.specs.Limits.{longest_chain};
ghost use Rattle.records.specs.Holds.{kind_byte};
ghost use Rattle.records.specs.Words.{word_at};
ghost use Rattle.reading.specs.Reading.{Reading, table_of};
ghost use Rattle.reading.specs.Events.{heard};
ghost use Rattle.reading.specs.Calls.{calls_of};
ghost use Rattle.reading.specs.Bits.{holds};
ghost use Rattle.chains.specs.Chains.{in_level, activates_one, Levelled};

use cells::get16;
use keys::{NO_KEY, earlier, number_key};
use reading::bits::{Set, empty, has, is_empty, only, union};
use reading::bodies::body_at;
use reading::calls::next_call;
use records::fields::{inside_at, place_at};
use rules::limits::LONGEST_CHAIN;

// Whether the name i is of the level: of that of all names, or of the declarations in it.
pub fn in_level(
    records: &[u8],
    decls: &[u8],
    m: usize,
    n: usize,
    i: usize,
    level: Set,
    all: bool,
) -> bool
    requires { Reading records.now decls.now m n × ((i < n) × (kind_byte records.now i ≡ kind_no Name)) }
    ensures { (v : Reading records.now decls.now m n) → result ≡ in_level (table_of v) level.w all (word_at v.tokens i) }
{
    if all {
        return true;
    }
    let k = inside_at(records, i);
    if m <= k {
        return false;
    }
    has(level, k)
}

// Whether the action at from activates a name of the level.
fn activates(
    records: &[u8],
    decls: &[u8],
    m: usize,
    n: usize,
    from: usize,
    level: Set,
    all: bool,
) -> bool
    requires { Reading records.now decls.now m n }
    ensures { (v : Reading records.now decls.now m n) → result ≡ any_name (in_level (table_of v) level.w all) (calls_of (heard 0 0 (drop from v.tokens))) }
{
    let mut at = from;
    let mut depth: usize = 0;
    let mut mode: usize = 0;
    loop {
        let call = next_call(records, n, at, depth, mode);
        let name = call.name;
        if n <= name {
            return false;
        }
        if in_level(records, decls, m, n, name, level, all) {
            return true;
        }
        at = call.at;
        depth = call.depth;
        mode = call.mode;
    }
}

// Whether the declaration k has a body that activates a name of the level.
fn rises(records: &[u8], decls: &[u8], m: usize, n: usize, k: usize, level: Set, all: bool) -> bool
    requires { Reading records.now decls.now m n × (k < m) }
    ensures { (v : Reading records.now decls.now m n) → result ≡ activates_one (table_of v) (in_level (table_of v) level.w all) k }
{
    let Some(body) = body_at(records, decls, m, n, k) else {
        return false;
    };
    activates(records, decls, m, n, body, level, all)
}

// The set with k, if it is to be in it.
fn grown(set: Set, k: usize, more: bool) -> Set
    requires { k < 256 }
    ensures { (j : ℕ) → holds result.w j ≡ ((eqb j k && more) || holds set.w j) }
{
    if more {
        return union(only(k), set);
    }
    set
}

// The next level.
pub fn next_level(records: &[u8], decls: &[u8], m: usize, n: usize, level: Set, all: bool) -> Set
    requires { Reading records.now decls.now m n }
    ensures { (v : Reading records.now decls.now m n) (j : ℕ) → holds result.w j ≡ (ltb j m && activates_one (table_of v) (in_level (table_of v) level.w all) j) }
{
    let mut set = empty();
    for k in 0..m {
        set = grown(set, k, rises(records, decls, m, n, k, level, all));
    }
    set
}

// The declarations that begin a chain over 16 bodies long.
pub fn over_longest(records: &[u8], decls: &[u8], m: usize, n: usize) -> Set
    requires { Reading records.now decls.now m n }
    ensures { (v : Reading records.now decls.now m n) → Levelled (table_of v) result.w false longest_chain }
{
    let mut level = next_level(records, decls, m, n, empty(), true);
    for _k in 1..LONGEST_CHAIN {
        if is_empty(level) {
            return level;
        }
        level = next_level(records, decls, m, n, level, false);
    }
    level
}

// The key of 51 at the declaration k.
fn chain_at(records: &[u8], decls: &[u8], m: usize, n: usize, k: usize, over: Set) -> u32
    requires { Reading records.now decls.now m n × (k < m) }
    ensures { (v : Reading records.now decls.now m n) (d : Declared) → get_elem? (table_of v) k ≡ some d
        → result ≡ least_number_key (when (holds over.w k) 51 d.name.place) }
{
    if has(over, k) {
        return number_key(51, place_at(records, get16(decls, k) as usize));
    }
    NO_KEY
}

// The least key of 51.
pub fn chain_key(records: &[u8], decls: &[u8], m: usize, n: usize) -> u32
    requires { Reading records.now decls.now m n }
    ensures { (v : Reading records.now decls.now m n) → result ≡ least_number_key (chains (table_of v) (table_of v)) }
{
    let over = over_longest(records, decls, m, n);
    let mut key = NO_KEY;
    for k in 0..m {
        key = earlier(key, chain_at(records, decls, m, n, k, over));
    }
    key
}
