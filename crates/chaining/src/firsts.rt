// The first activation of a level in the text of a body, and the body that is refused.
ghost use Rattle.std.specs.Prelude.{false, ◌<◌, drop};
ghost use Rattle.rules.specs.Limits.{longest_chain};
ghost use Rattle.rules.specs.Whole.Sets.{calls_in};
ghost use Rattle.reading.specs.Reading.{Reading, table_of};
ghost use Rattle.reading.specs.Events.{heard};
ghost use Rattle.reading.specs.Calls.{calls_of};
ghost use Rattle.reading.specs.Bodies.{act_at};
ghost use Rattle.chains.specs.Chains.{in_level, Levelled};
ghost use Rattle.chaining.specs.Firsts.{first_in, start_of, Numbered};

use chains::chains::in_level;
use reading::bits::{Set, has};
use reading::bodies::body_at;
use reading::calls::next_call;
use records::fields::inside_at;
use sharing::name_place;

// The first activation of the action at from that is of the level, by the number of its declaration; m or more where there is none.
fn first_in(
    records: &[u8],
    decls: &[u8],
    m: usize,
    n: usize,
    from: usize,
    level: Set,
    all: bool,
) -> usize
    requires { Reading records.now decls.now m n }
    ensures { (v : Reading records.now decls.now m n)
        → Numbered m result (first_in (table_of v) (in_level (table_of v) level.w all) (calls_of (heard 0 0 (drop from v.tokens)))) }
{
    let mut at = from;
    let mut depth: usize = 0;
    let mut mode: usize = 0;
    loop {
        let call = next_call(records, n, at, depth, mode);
        let name = call.name;
        if n <= name {
            return m;
        }
        if in_level(records, decls, m, n, name, level, all) {
            return inside_at(records, name);
        }
        at = call.at;
        depth = call.depth;
        mode = call.mode;
    }
}

// The same of the body of the declaration k.
pub fn first_of(
    records: &[u8],
    decls: &[u8],
    m: usize,
    n: usize,
    k: usize,
    level: Set,
    all: bool,
) -> usize
    requires { Reading records.now decls.now m n × (k < m) }
    ensures { (v : Reading records.now decls.now m n)
        → Numbered m result (first_in (table_of v) (in_level (table_of v) level.w all) (calls_in (act_at (table_of v) k))) }
{
    let Some(body) = body_at(records, decls, m, n, k) else {
        return m;
    };
    first_in(records, decls, m, n, body, level, all)
}

// The body at the place that begins a chain over 16 bodies long, or m.
pub fn refused_body(
    records: &[u8],
    decls: &[u8],
    m: usize,
    n: usize,
    over: Set,
    place: usize,
) -> usize
    requires { Reading records.now decls.now m n
        × ((v : Reading records.now decls.now m n) → Levelled (table_of v) over.w false longest_chain) }
    ensures { (v : Reading records.now decls.now m n) → Numbered m result (start_of (table_of v) place) }
{
    for k in 0..m {
        if name_place(records, decls, m, n, k) == place && has(over, k) {
            return k;
        }
    }
    m
}
