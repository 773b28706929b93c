// Why a text is refused: Check with a reason.
#![tactic(auto)]

mod numbers;
mod reports;

ghost use Rattle.rules.specs.Calls.Memory.{memory};
ghost use Rattle.rules.specs.Calls.Why.{WhyCall};

use crate::reports::reported;
use lent::memory::unread;
use lent::settling::settle;

// The published size of the buffer for a reason.
const REASON_SIZE: usize = 96;

// Judges a text and says why. Returns the number of the answer, which stands in `answer` unless it is 1 or 2; the reason stands in front of `reason` then.
pub fn why(
    text: &[u8],
    a: &mut [u8],
    b: &mut [u8],
    c: &mut [u8],
    reason: &mut [u8],
    answer: &mut [u8],
) -> u32
    ensures { WhyCall text.now (memory a.old b.old c.old answer.old)
        (memory a.new b.new c.new answer.new) reason.old reason.new result }
{
    if reason.len() < REASON_SIZE {
        return 1;
    }
    if let Some(refused) = unread(text, a, b, c, answer) {
        return refused;
    }
    let found = reported(text, a, b, c, reason);
    settle(a, b, c, answer, found);
    found.number
}
