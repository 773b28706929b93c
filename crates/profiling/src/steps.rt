// What a token does to a walk.
ghost use Rattle.std.specs.Prelude.{◌≡◌, false};
ghost use Rattle.records.specs.Holds.{kind_byte};
ghost use Rattle.profiling.specs.Walking.{Acting, Acted, Aims};
ghost use Rattle.nesting.specs.Holding.{Standing, Does};
ghost use Rattle.nesting.specs.Machine.{reached, chosen};

use crate::names::name;
use crate::tasks::Task;
use nesting::frames::{also, another, close, next, open};
use nesting::labels::leave;
use nesting::nests::{Nest, choosing, reach, transfer, turning};
use reading::kinds::kind_of;
use rules::kinds::{BEGIN, COMMA, DECODE, END, EQUALS, IF, LEAVE, NAME, NEXT, NO_OP, REPEAT, SEMI};

// IF: its action may be passed by.
fn test(room: &mut [u8], s: Nest) -> Nest
    requires { Standing room.old s }
    ensures { Does (λ z. reached (chosen false z) z.marks) room.old s room.new result }
{
    let t = choosing(s, false);
    reach(room, t)
}

// LEAVE at i.
fn jump(
    records: &[u8],
    decls: &[u8],
    table: &[u8],
    room: &mut [u8],
    t: Task,
    i: usize,
    s: Nest,
) -> Nest
    requires { Acting records.now decls.now table.now room.old t i s }
    ensures { Aims records.now decls.now table.now room.old room.new t i s result }
{
    let n = t.n;
    if kind_of(records, n, i + 1) == NAME {
        return leave(records, room, n, i + 1, s);
    }
    s
}

// The token i, of this kind.
pub fn step(
    records: &[u8],
    decls: &[u8],
    table: &[u8],
    room: &mut [u8],
    t: Task,
    i: usize,
    kind: u8,
    mode: usize,
    s: Nest,
) -> Nest
    requires { Acting records.now decls.now table.now room.old t i s × (kind ≡ kind_byte records.now i) }
    ensures { Acted records.now decls.now table.now room.old room.new t i mode s result }
{
    if kind == NAME {
        return name(records, decls, table, room, t, i, mode, s);
    }
    if kind == BEGIN {
        return open(room, s);
    }
    if kind == END {
        return close(room, s);
    }
    if kind == SEMI {
        return also(room, s);
    }
    if kind == NEXT {
        return next(room, s);
    }
    if kind == COMMA {
        return another(room, s);
    }
    if kind == EQUALS {
        return transfer(room, s);
    }
    if kind == IF {
        return test(room, s);
    }
    if kind == DECODE {
        return choosing(s, true);
    }
    if kind == REPEAT {
        return turning(s);
    }
    if kind == LEAVE {
        return jump(records, decls, table, room, t, i, s);
    }
    if kind == NO_OP {
        return reach(room, s);
    }
    s
}
