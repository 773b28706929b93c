// Two texts over one table of carriers: reads both afresh and takes their turns.
#![tactic(auto)]

mod answers;
mod memory;
mod texts;
mod turned;

ghost use Rattle.rules.specs.Calls.Memory.{memory};
ghost use Rattle.rules.specs.Calls.Pair.{more_memory, PairCall};

use crate::memory::unread_pair;
use crate::texts::pair_texts;
use lent::memory::clear;
use lent::settling::settle;

// Takes the turns of two texts from the carriers, with one budget of steps for all. Returns the number of the answer, which stands in `answer` unless it is
// 1 or 2.
pub fn pair(
    first: &[u8],
    second: &[u8],
    carriers: &mut [u8],
    turns: &[u8],
    budget: u32,
    a: &mut [u8],
    b: &mut [u8],
    c: &mut [u8],
    d: &mut [u8],
    e: &mut [u8],
    f: &mut [u8],
    answer: &mut [u8],
) -> u32
    ensures { PairCall first.now second.now carriers.old turns.now budget
        (memory a.old b.old c.old answer.old)
        (memory a.new b.new c.new answer.new)
        (more_memory d.old e.old f.old) (more_memory d.new e.new f.new)
        carriers.new result }
{
    if let Some(refused) = unread_pair(first, second, a, b, c, d, e, f, answer) {
        return refused;
    }
    let found = pair_texts(first, second, carriers, turns, budget, a, b, c, d, e, f);
    settle(a, b, c, answer, found);
    clear(d);
    clear(e);
    clear(f);
    found.number
}
