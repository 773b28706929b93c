// What is lent to two texts: whether it is enough.
ghost use Rattle.rules.specs.Calls.Memory.{memory};
ghost use Rattle.rules.specs.Calls.Pair.{more_memory};
ghost use Rattle.pairing.specs.Unread.{Unread};

use lent::memory::{WORK_SIZE, unread};
use rules::limits::LONGEST_TEXT;

// The number of the refusal for which no text is read, 1 or 2.
pub fn unread_pair(
    first: &[u8],
    second: &[u8],
    a: &[u8],
    b: &[u8],
    c: &[u8],
    d: &[u8],
    e: &[u8],
    f: &[u8],
    answer: &[u8],
) -> Option<u32>
    ensures { Unread first.now second.now (memory a.now b.now c.now answer.now)
        (more_memory d.now e.now f.now) result }
{
    if d.len() < WORK_SIZE {
        return Some(1);
    }
    if e.len() < WORK_SIZE {
        return Some(1);
    }
    if f.len() < WORK_SIZE {
        return Some(1);
    }
    if let Some(refused) = unread(first, a, b, c, answer) {
        return Some(refused);
    }
    if LONGEST_TEXT < second.len() {
        return Some(2);
    }
    None
}
