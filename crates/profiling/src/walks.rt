// The walk along the tokens of a body.
ghost use Rattle.std.specs.Prelude.{◌+◌, ◌*◌, ◌<◌, ◌≤◌, length};
ghost use Rattle.rules.specs.Limits.{most_tokens};
ghost use Rattle.room.specs.Profile.{most_flags, room_size};
ghost use Rattle.profiling.specs.Going.{Cleared, Beginning, Begins, Tells, Walked};
ghost use Rattle.nesting.specs.Holding.{Standing};

use crate::steps::step;
use crate::tasks::Task;
use cells::put16;
use nesting::labels::put_label;
use nesting::nests::{Nest, flag_at};
use reading::kinds::mode;
use records::fields::kind_at;
use room::profile::FRAMES;

// Whether its end is reached, and the lowest place that is too early.
#[derive(Clone, Copy)]
pub struct Found {
    pub ends: bool,
    pub low: usize,
}

fn clear_flags(room: &mut [u8])
    requires { room_size ≤ length room.old }
    ensures { Cleared room.old room.new most_flags }
{
    for k in 0..FRAMES {
        put16(room, k, 0);
    }
}

// At the start of a body, whose own name is the outermost label.
fn begin(records: &[u8], room: &mut [u8], name: usize) -> Nest
    requires { (room_size ≤ length room.old) × (name < most_tokens) × (8 * name + 8 ≤ length records.now) }
    ensures { Begins records.now room.new name result }
{
    clear_flags(room);
    put_label(records, room, 0, name, 1);
    Nest {
        depth: 0,
        free: 2,
        label: 1,
        flag: 1,
        comes: true,
        choosing: false,
        destination: None,
        low: 65535,
    }
}

// What a walk has found.
fn tell(room: &[u8], s: Nest) -> Found
    requires { Standing room.now s }
    ensures { Tells room.now s result }
{
    Found {
        ends: flag_at(room, 1),
        low: s.low,
    }
}

// The body at `from` of the declaration whose name is the token `name`.
pub fn walk(
    records: &[u8],
    decls: &[u8],
    table: &[u8],
    room: &mut [u8],
    t: Task,
    name: usize,
    from: usize,
) -> Found
    requires { Beginning records.now decls.now table.now room.old t name from }
    ensures { Walked records.now decls.now table.now t name from result }
{
    let n = t.n;
    let mut s = begin(records, room, name);
    let mut reading: usize = 0;
    for i in from..n {
        let kind = kind_at(records, i);
        s = step(records, decls, table, room, t, i, kind, reading, s);
        if s.depth == 0 {
            return tell(room, s);
        }
        reading = mode(reading, kind);
    }
    tell(room, s)
}
