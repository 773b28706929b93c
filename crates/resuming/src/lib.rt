// The resume profile: whether a description writes its output before its test has ended.
#![tactic(auto)]

mod mains;
mod outputs;
mod profiles;

ghost use Rattle.rules.specs.Calls.Memory.{memory};
ghost use Rattle.rules.specs.Calls.Profile.{ProfileCall};

use crate::profiles::profiled;
use lent::memory::unread;
use lent::settling::settle;

// Judges a text by the names of a test and an output. Returns the number of the answer, which stands in `answer` unless it is 1 or 2.
pub fn profile(
    text: &[u8],
    test: &[u8],
    output: &[u8],
    a: &mut [u8],
    b: &mut [u8],
    c: &mut [u8],
    answer: &mut [u8],
) -> u32
    ensures { ProfileCall text.now test.now output.now (memory a.old b.old c.old answer.old)
        (memory a.new b.new c.new answer.new) result }
{
    if let Some(refused) = unread(text, a, b, c, answer) {
        return refused;
    }
    let found = profiled(text, test, output, a, b, c);
    settle(a, b, c, answer, found);
    found.number
}
