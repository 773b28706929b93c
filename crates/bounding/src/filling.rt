// The counts of the bodies, by recursion down activations: each body is walked once, behind those that it activates. The remaining length of the chain falls.
ghost use Rattle.std.specs.Prelude.{◌≡◌, false, ◌<◌, ◌≤◌, length};
ghost use Rattle.rules.specs.Text.Tokens.{Name, kind_no};
ghost use Rattle.rules.specs.Whole.Sets.{any_name, chain_over};
ghost use Rattle.rules.specs.Limits.{longest_chain};
ghost use Rattle.records.specs.Holds.{kind_byte};
ghost use Rattle.reading.specs.Reading.{table_of};
ghost use Rattle.walking.specs.Walking.{table_size};
ghost use Rattle.bounding.specs.Filling.{Ready, ShortFrom, calls_from, Blank, Fillable, Fills, Descends};

use cells::{get64, put64};
use reading::bodies::body_at;
use reading::calls::next_call;
use reading::names::{UNDECLARED, index_of};
use walking::walks::walk;

// A count that is not known yet: each body takes a step.
const UNKNOWN: u64 = 0;

// Nothing is known, but that a name which is not declared does nothing. That is a step.
pub fn blank(table: &mut [u8])
    requires { table_size ≤ length table.old }
    ensures { Blank table.old table.new }
{
    for k in 0..UNDECLARED {
        put64(table, k, UNKNOWN);
    }
    put64(table, UNDECLARED, 1);
}

// Fills in the count of the name i, whose chains are at most `left` bodies long. Without a body it does nothing, which is a step.
#[cycle(descend_fill)]
pub fn fill(
    records: &[u8],
    decls: &[u8],
    table: &mut [u8],
    room: &mut [u8],
    m: usize,
    n: usize,
    i: usize,
    left: usize,
)
    requires { Fillable records.now decls.now table.old room.old m n × ((i < n) × ((kind_byte records.now i ≡ kind_no Name)
        × ((left ≤ longest_chain) × ((v : Ready records.now decls.now m n) → ShortFrom v i left)))) }
    ensures { Fills records.now decls.now table.old table.new m n i }
{
    let k = index_of(records, m, i);
    if get64(table, k) != UNKNOWN {
        return;
    }
    let Some(body) = body_at(records, decls, m, n, k) else {
        put64(table, k, 1);
        return;
    };
    descend(records, decls, table, room, m, n, body, left - 1);
    let count = walk(records, table, room, m, n, body);
    put64(table, k, count);
}

// Fills in the counts of the bodies that the action at `from` activates.
#[cycle(descend_fill)]
fn descend(
    records: &[u8],
    decls: &[u8],
    table: &mut [u8],
    room: &mut [u8],
    m: usize,
    n: usize,
    from: usize,
    left: usize,
)
    requires { Fillable records.now decls.now table.old room.old m n × ((left ≤ longest_chain)
        × ((v : Ready records.now decls.now m n) → any_name (chain_over (table_of v.reading) left) (calls_from v from) ≡ false)) }
    ensures { Descends records.now decls.now table.old table.new m n from }
{
    let mut at = from;
    let mut depth: usize = 0;
    let mut mode: usize = 0;
    // A loop: each activation is looked for behind the one before.
    loop {
        let call = next_call(records, n, at, depth, mode);
        let name = call.name;
        if n <= name {
            return;
        }
        fill(records, decls, table, room, m, n, name, left);
        at = call.at;
        depth = call.depth;
        mode = call.mode;
    }
}
