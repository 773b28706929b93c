// The longest run: a bound on the steps of a text.
#![tactic(auto)]

mod answers;

ghost use Rattle.rules.specs.Calls.Memory.{memory};
ghost use Rattle.rules.specs.Calls.Bound.{BoundCall};

use crate::answers::bounded;
use lent::memory::unread;
use lent::settling::settle;

// Bounds the steps of a text's runs. Returns the number of the answer, which stands in `answer` unless it is 1 or 2.
pub fn bound(text: &[u8], a: &mut [u8], b: &mut [u8], c: &mut [u8], answer: &mut [u8]) -> u32
    ensures { BoundCall text.now (memory a.old b.old c.old answer.old)
        (memory a.new b.new c.new answer.new) result }
{
    if let Some(refused) = unread(text, a, b, c, answer) {
        return refused;
    }
    let found = bounded(text, a, b, c);
    settle(a, b, c, answer, found);
    found.number
}
