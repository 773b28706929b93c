// What a name does at the start of an action or in a destination.
ghost use Rattle.std.specs.Prelude.{◌≡◌, ◌+◌, ◌*◌, ◌<◌};
ghost use Rattle.rules.specs.Text.Tokens.{Name, kind_no};
ghost use Rattle.rules.specs.Whole.Sets.{member, owner};
ghost use Rattle.records.specs.Holds.{kind_byte};
ghost use Rattle.records.specs.Words.{word_at};
ghost use Rattle.reading.specs.Reading.{Reading, table_of};
ghost use Rattle.profiling.specs.Walking.{Acting, Named, Activates};

use crate::tasks::Task;
use cells::get16;
use nesting::labels::label;
use nesting::nests::{Nest, both, destine, flag_at, lowered, mark};
use reading::kinds::{kind_of, stores};
use reading::names::{carrier, index_of};
use records::fields::place_at;
use rules::kinds::{BECOMES, LPAR};

// The activation of the name i: by what is known of its body. That of the test does not come back.
fn activate(
    records: &[u8],
    decls: &[u8],
    table: &[u8],
    room: &mut [u8],
    t: Task,
    i: usize,
    s: Nest,
) -> Nest
    requires { Acting records.now decls.now table.now room.old t i s × (kind_byte records.now i ≡ kind_no Name) }
    ensures { Activates records.now decls.now table.now room.old room.new t i s result }
{
    let aim = t.aim;
    let comes = s.comes;
    let k = index_of(records, t.m, i);
    let back = both(k != aim, flag_at(table, 2 * k));
    let place = get16(table, 2 * k + 1) as usize;
    let low = lowered(s.low, place, comes);
    mark(room, s.flag, both(comes, back));
    Nest { low, ..s }
}

// Whether the name i is the output, or a mapping on it.
fn hits(records: &[u8], decls: &[u8], t: Task, i: usize) -> bool
    requires { Reading records.now decls.now t.m t.n × ((i < t.n) × (kind_byte records.now i ≡ kind_no Name)) × (t.out < 256) }
    ensures { (v : Reading records.now decls.now t.m t.n) → result ≡ member t.out (owner (table_of v) (word_at v.tokens i)) }
{
    let out = t.out;
    let c = carrier(records, decls, t.m, t.n, i);
    out == c
}

// The name i.
pub fn name(
    records: &[u8],
    decls: &[u8],
    table: &[u8],
    room: &mut [u8],
    t: Task,
    i: usize,
    mode: usize,
    s: Nest,
) -> Nest
    requires { Acting records.now decls.now table.now room.old t i s × (kind_byte records.now i ≡ kind_no Name) }
    ensures { Named records.now decls.now table.now room.old room.new t i mode s result }
{
    if mode != 0 {
        return s;
    }
    let next = kind_of(records, t.n, i + 1);
    if next == BECOMES {
        return label(records, room, i, s);
    }
    if next == LPAR {
        return activate(records, decls, table, room, t, i, s);
    }
    if stores(next) {
        let place = place_at(records, i);
        return destine(s, place, hits(records, decls, t, i));
    }
    s
}
