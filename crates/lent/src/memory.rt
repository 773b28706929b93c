// Lent memory: whether it is enough, and how it is cleared.
ghost use Rattle.std.specs.Prelude.{◌≡◌};
ghost use Rattle.rules.specs.Calls.Memory.{memory, zeros};
ghost use Rattle.lent.specs.Measured.{Measured, Unread};

use rules::limits::LONGEST_TEXT;

pub const WORK_SIZE: usize = 65536;

const ANSWER_SIZE: usize = 32;

// Whether no buffer is shorter than published.
fn is_enough(a: &[u8], b: &[u8], c: &[u8], answer: &[u8]) -> bool
    ensures { Measured (memory a.now b.now c.now answer.now) result }
{
    if a.len() < WORK_SIZE {
        return false;
    }
    if b.len() < WORK_SIZE {
        return false;
    }
    if c.len() < WORK_SIZE {
        return false;
    }
    if answer.len() < ANSWER_SIZE {
        return false;
    }
    true
}

// The number of the refusal for which the text is not even read, 1 or 2.
pub fn unread(text: &[u8], a: &[u8], b: &[u8], c: &[u8], answer: &[u8]) -> Option<u32>
    ensures { Unread text.now (memory a.now b.now c.now answer.now) result }
{
    if !is_enough(a, b, c, answer) {
        return Some(1);
    }
    if LONGEST_TEXT < text.len() {
        return Some(2);
    }
    None
}

// Puts 0 into every byte.
pub fn clear(work: &mut [u8])
    ensures { work.new ≡ zeros work.old }
{
    work.fill(0);
}
