// What a token does to a walk.
ghost use Rattle.std.specs.Prelude.{◌≡◌};
ghost use Rattle.records.specs.Holds.{kind_byte};
ghost use Rattle.walking.specs.Walking.{Acting, Acted};

use crate::names::name;
use counting::counts::{Nest, count, turn};
use counting::frames::{another, close, open};
use counting::kinds::{takes_step, turns};
use rules::kinds::{BEGIN, COMMA, END, NAME};

// The token i, of this kind.
pub fn step(
    records: &[u8],
    table: &[u8],
    room: &mut [u8],
    m: usize,
    n: usize,
    i: usize,
    kind: u8,
    mode: usize,
    s: Nest,
) -> Nest
    requires { Acting records.now table.now room.old m n i s × (kind ≡ kind_byte records.now i) }
    ensures { Acted records.now table.now room.old room.new m n i mode s result }
{
    if kind == NAME {
        return name(records, table, m, n, i, mode, s);
    }
    if kind == BEGIN {
        return open(room, s);
    }
    if kind == END {
        return close(room, s);
    }
    if kind == COMMA {
        return another(room, s);
    }
    if takes_step(kind) {
        return count(s, 1);
    }
    if turns(kind) {
        return turn(s);
    }
    s
}
