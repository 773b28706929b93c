// How a call leaves the memory that it was lent.
ghost use Rattle.std.specs.Prelude.{◌≤◌, length};
ghost use Rattle.rules.specs.Calls.Memory.{answer_size, memory};
ghost use Rattle.lent.specs.Settled.{Settled};

use crate::answers::{Answer, put_answer};
use crate::memory::clear;

// Work memory is zero, and the answer is written.
pub fn settle(a: &mut [u8], b: &mut [u8], c: &mut [u8], answer: &mut [u8], found: Answer)
    requires { answer_size ≤ length answer.old }
    ensures { Settled (memory a.old b.old c.old answer.old)
        (memory a.new b.new c.new answer.new) found }
{
    clear(a);
    clear(b);
    clear(c);
    put_answer(answer, found);
}
