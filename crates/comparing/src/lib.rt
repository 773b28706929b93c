// Trace: compares a designer's list of stores with the runs of a text.
#![tactic(auto)]

mod working;

ghost use Rattle.rules.specs.Calls.Memory.{memory};
ghost use Rattle.rules.specs.Calls.Trace.{TraceCall};

use crate::working::traced;
use lent::memory::{WORK_SIZE, clear, unread};
use lent::settling::settle;

// Compares a list of stores with the runs of a text from the carriers, with a budget of steps. Returns the number of the answer, which stands in `answer` unless it is
// 1 or 2.
pub fn trace(
    text: &[u8],
    carriers: &[u8],
    budget: u32,
    entries: &[u8],
    a: &mut [u8],
    b: &mut [u8],
    c: &mut [u8],
    d: &mut [u8],
    answer: &mut [u8],
) -> u32
    ensures { TraceCall text.now carriers.now budget entries.now (memory a.old b.old c.old answer.old)
        (memory a.new b.new c.new answer.new) d.old d.new result }
{
    if d.len() < WORK_SIZE {
        return 1;
    }
    if let Some(refused) = unread(text, a, b, c, answer) {
        return refused;
    }
    let found = traced(text, carriers, budget, entries, a, b, c, d);
    settle(a, b, c, answer, found);
    clear(d);
    found.number
}
