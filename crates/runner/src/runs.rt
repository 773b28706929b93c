// The run from left to right, with a budget of steps.
ghost use Rattle.std.specs.Prelude.{◌≤◌, length};
ghost use Rattle.runner.specs.Runs.{RunAt, RunAnswer};

use crate::turns::{Turned, onward};
use rules::limits::LONGEST_CHAIN;
use stepping::steps::step;

// How a run ends, with the number of steps; a fault with its number and its place too.
#[derive(Clone, Copy)]
pub enum Ended {
    Done(u32),
    Stopped(u32),
    Paused(u32),
    Fault { number: u32, place: u16, steps: u32 },
}

// Runs the body that begins at `start`. The scratch may hold anything afterwards.
pub fn run(
    records: &[u8],
    values: &[u8],
    decls: &[u8],
    carriers: &mut [u8],
    scratch: &mut [u8],
    start: usize,
    budget: u32,
) -> Ended
    requires { RunAt records.now values.now decls.now carriers.old start × (512 ≤ length scratch.old) }
    ensures { (v : RunAt records.now values.now decls.now carriers.old start)
        → RunAnswer v budget carriers.new result }
{
    let mut stack: [usize; LONGEST_CHAIN] = [0; LONGEST_CHAIN];
    let mut depth: usize = 0;
    let mut at = start;
    for steps in 0..budget {
        let moved = match step(records, values, decls, carriers, scratch, at) {
            Ok(moved) => moved,
            Err(fault) => {
                return Ended::Fault {
                    number: fault.number as u32,
                    place: fault.place,
                    steps,
                };
            }
        };
        match onward(&mut stack, depth, moved) {
            Turned::Stop => {
                return Ended::Stopped(steps + 1);
            }
            Turned::Over => {
                return Ended::Done(steps + 1);
            }
            Turned::At(next, high) => {
                at = next;
                depth = high;
            }
        }
    }
    Ended::Paused(budget)
}
