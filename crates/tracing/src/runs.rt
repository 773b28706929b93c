// The run from left to right, with a budget of steps, that tells the matching.
ghost use Rattle.std.specs.Prelude.{◌≡◌, ◌<◌, Ok};
ghost use Rattle.rules.specs.Limits.{most_steps};
ghost use Rattle.tracing.specs.Traces.{ended_by, TraceAt, TraceTold};

use crate::turns::turn;
use passing::enter;
use rules::limits::LONGEST_CHAIN;
use runner::runs::Ended;
use runner::turns::Turned;

// Where the cells of tokens begin in the memory, behind the room for the carriers.
pub const CELLS: usize = 32768;

// Bytes for the fields of a joined destination.
const SCRATCH: usize = 512;

// How a run stands behind so many steps and one that leads there: at an instruction it is paused.
fn ended(turned: Turned, steps: u32) -> Ended
    requires { steps < most_steps }
    ensures { result ≡ ended_by (Ok turned) steps }
{
    match turned {
        Turned::At(_, _) => Ended::Paused(steps + 1),
        Turned::Over => Ended::Done(steps + 1),
        Turned::Stop => Ended::Stopped(steps + 1),
    }
}

// Runs MAIN, which begins at `start`. The first `size` bytes of the memory are the carriers, and from CELLS on the n tokens have their cells.
pub fn trace(
    records: &[u8],
    values: &[u8],
    decls: &[u8],
    memory: &mut [u8],
    room: &mut [u8],
    entries: &[u8],
    start: usize,
    n: usize,
    size: usize,
    budget: u32,
) -> Ended
    requires { TraceAt records.now values.now decls.now memory.old room.old entries.now start n size }
    ensures { (v : TraceAt records.now values.now decls.now memory.old room.old entries.now start n size)
        → TraceTold v budget memory.new room.new result }
{
    let mut scratch: [u8; SCRATCH] = [0; SCRATCH];
    let mut stack: [usize; LONGEST_CHAIN] = [0; LONGEST_CHAIN];
    let mut depth: usize = 0;
    let mut at = start;
    enter(room, &memory[CELLS..], n, start);
    for steps in 0..budget {
        let turned = match turn(
            records,
            values,
            decls,
            memory,
            &mut scratch,
            room,
            entries,
            &mut stack,
            depth,
            n,
            size,
            at,
        ) {
            Ok(turned) => turned,
            Err(fault) => {
                return Ended::Fault {
                    number: fault.number as u32,
                    place: fault.place,
                    steps,
                };
            }
        };
        let Turned::At(next, high) = turned else {
            return ended(turned, steps);
        };
        at = next;
        depth = high;
    }
    Ended::Paused(budget)
}
