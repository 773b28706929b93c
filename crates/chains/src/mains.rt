// MAIN: that there is one, and no second.
ghost use Rattle.std.specs.Prelude.{◌≡◌, not, ◌||◌, false, ◌<◌, ℕ, is_some};
ghost use Rattle.std.proofs.Math.Option.{Option};
ghost use Rattle.rules.specs.Text.Tokens.{Info};
ghost use Rattle.rules.specs.Faults.Fault.{when};
ghost use Rattle.rules.specs.Faults.Whole.{mains};
ghost use Rattle.keys.specs.Keys.{least_number_key};
ghost use Rattle.table.specs.Views.{MainAt};
ghost use Rattle.reading.specs.Reading.{Reading, table_of};
ghost use Rattle.chains.specs.Mains.{Mainly, second_main};

use cells::get16;
use keys::{NO_KEY, earlier, number_key};
use records::fields::place_at;
use table::views::main_of;

// The MAIN of the declaration k.
fn main_at(records: &[u8], decls: &[u8], m: usize, n: usize, k: usize) -> Option<usize>
    requires { Reading records.now decls.now m n × (k < m) }
    ensures { Mainly records.now decls.now m n k result }
{
    main_of(records, get16(decls, k) as usize)
}

// The key of a second MAIN, at the token at.
fn second_key(
    records: &[u8],
    decls: &[u8],
    m: usize,
    n: usize,
    at: Option<usize>,
    seen: bool,
) -> u32
    requires { Reading records.now decls.now m n × ((p : ℕ) → at ≡ Some p → p < n) }
    ensures { (v : Reading records.now decls.now m n) (x : Option Info) → MainAt v.tokens at x → result ≡ least_number_key (second_main seen x) }
{
    let Some(at) = at else {
        return NO_KEY;
    };
    if seen {
        return number_key(50, place_at(records, at));
    }
    NO_KEY
}

// Whether MAIN is seen, with the token at.
fn met(seen: bool, at: Option<usize>) -> bool
    ensures { result ≡ (seen || is_some at) }
{
    seen || at.is_some()
}

// The key of a missing MAIN.
fn missing_key(seen: bool) -> u32
    ensures { result ≡ least_number_key (when (not seen) 50 0) }
{
    if seen {
        return NO_KEY;
    }
    number_key(50, 0)
}

// The least key of 50.
pub fn main_key(records: &[u8], decls: &[u8], m: usize, n: usize) -> u32
    requires { Reading records.now decls.now m n }
    ensures { (v : Reading records.now decls.now m n) → result ≡ least_number_key (mains false (table_of v)) }
{
    let mut key = NO_KEY;
    let mut seen = false;
    for k in 0..m {
        let at = main_at(records, decls, m, n, k);
        key = earlier(key, second_key(records, decls, m, n, at, seen));
        seen = met(seen, at);
    }
    earlier(key, missing_key(seen))
}
