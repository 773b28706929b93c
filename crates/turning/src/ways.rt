// The way that control takes behind an instruction. What it passes is told.
ghost use Rattle.std.specs.Prelude.{◌<◌, length, Ok};
ghost use Rattle.telling.specs.Cited.Tracing.{return};
ghost use Rattle.turning.specs.Ways.{way_of, WayAt, WayTold};

use passing::{enter, leave, pass};
use records::fields::link_at;
use runner::turns::Turned;
use stepping::steps::Moved;

// Out of a body: control goes on behind its activation, or out of that body too.
fn back(
    records: &[u8],
    cells: &[u8],
    room: &mut [u8],
    stack: &[usize],
    depth: usize,
    n: usize,
) -> Turned
    requires { WayAt records.now cells.now room.old stack.now n depth return }
    ensures { (v : WayAt records.now cells.now room.old stack.now n depth return)
        → WayTold v stack.now room.new (Ok result) }
{
    for top in (0..depth).rev() {
        let activation = stack[top];
        let behind = link_at(records, activation);
        if behind != 0 {
            pass(room, cells, n, activation, behind);
            return Turned::At(behind, top);
        }
        leave(room, cells, n, activation);
    }
    Turned::Over
}

// Behind the instruction `at`, where its step leads.
pub fn onward(
    records: &[u8],
    cells: &[u8],
    room: &mut [u8],
    stack: &mut [usize],
    depth: usize,
    n: usize,
    at: usize,
    moved: Moved,
) -> Turned
    requires { WayAt records.now cells.now room.old stack.old n depth (way_of at (Ok moved)) × (depth < length stack.old) }
    ensures { (v : WayAt records.now cells.now room.old stack.old n depth (way_of at (Ok moved)))
        → WayTold v stack.new room.new (Ok result) }
{
    match moved {
        Moved::Stop => Turned::Stop,
        Moved::Call(first, _) => {
            enter(room, cells, n, first);
            stack[depth] = at;
            Turned::At(first, depth + 1)
        }
        Moved::Go(next) => {
            if next != 0 {
                pass(room, cells, n, at, next);
                return Turned::At(next, depth);
            }
            leave(room, cells, n, at);
            back(records, cells, room, stack, depth, n)
        }
    }
}
