// One turn of the run: a step, whose stores are told, and then what control passes.
ghost use Rattle.std.specs.Prelude.{◌≤◌, length};
ghost use Rattle.tracing.specs.Turns.{TurnAt, TurnTold};

use crate::acts::act;
use crate::runs::CELLS;
use runner::turns::Turned;
use stepping::steps::Fault;
use turning::ways::onward;

// The turn at the instruction `at`, with so many activations that go on. There are n tokens.
pub fn turn(
    records: &[u8],
    values: &[u8],
    decls: &[u8],
    memory: &mut [u8],
    scratch: &mut [u8],
    room: &mut [u8],
    entries: &[u8],
    stack: &mut [usize],
    depth: usize,
    n: usize,
    size: usize,
    at: usize,
) -> Result<Turned, Fault>
    requires { TurnAt records.now values.now decls.now memory.old room.old entries.now stack.old depth n size at × (512 ≤ length scratch.old) }
    ensures { (v : TurnAt records.now values.now decls.now memory.old room.old entries.now stack.old depth n size at)
        → TurnTold v memory.new room.new stack.new result }
{
    let moved = act(
        records,
        values,
        decls,
        &mut memory[..size],
        scratch,
        room,
        entries,
        at,
    )?;
    Ok(onward(records, &memory[CELLS..], room, stack, depth, n, at, moved))
}
