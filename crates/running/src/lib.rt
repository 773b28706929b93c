// Run: reads a text afresh and runs it.
#![tactic(auto)]

pub mod runs;

ghost use Rattle.rules.specs.Calls.Memory.{memory};
ghost use Rattle.rules.specs.Calls.Run.{RunCall};

use crate::runs::ran;
use lent::memory::unread;
use lent::settling::settle;

// Runs a text from the carriers, left to right, with a budget of steps. Returns the number of the answer, which stands in `answer` unless it is 1 or 2.
pub fn run(
    text: &[u8],
    carriers: &mut [u8],
    budget: u32,
    a: &mut [u8],
    b: &mut [u8],
    c: &mut [u8],
    answer: &mut [u8],
) -> u32
    ensures { RunCall text.now carriers.old budget (memory a.old b.old c.old answer.old)
        (memory a.new b.new c.new answer.new) carriers.new result }
{
    if let Some(refused) = unread(text, a, b, c, answer) {
        return refused;
    }
    let found = ran(text, carriers, budget, a, b, c);
    settle(a, b, c, answer, found);
    found.number
}
