// An answer as eight numbers of 32 bits.
ghost use Rattle.std.specs.Prelude.{◌≡◌, [], ◌∷◌, ◌+◌, ◌*◌, ◌<◌, ◌≤◌, length};
ghost use Rattle.rules.specs.Answers.{refused_numbers};
ghost use Rattle.rules.specs.Calls.Memory.{answer_size, answered};
ghost use Rattle.lent.specs.Numbers.{numbers_of};

use cells::put64;
use positions::position_of;

// The numbers of an answer. What the fourth and the fifth mean depends on the call.
#[derive(Clone, Copy)]
pub struct Answer {
    pub ending: u32,
    pub number: u32,
    pub place: u32,
    pub steps: u32,
    pub fourth: u32,
    pub fifth: u32,
    pub line: u32,
    pub column: u32,
}

// Refused, with a number and a place.
pub fn refusal(text: &[u8], number: u32, place: usize) -> Answer
    requires { place < 65536 }
    ensures { numbers_of result ≡ refused_numbers text.now number place }
{
    let here = position_of(text, number, place);
    Answer {
        ending: 4,
        number,
        place: place as u32,
        steps: 0,
        fourth: 0,
        fifth: 0,
        line: here.line,
        column: here.column,
    }
}

// An ending without a number or a place: its code, the steps, and the two numbers of the call.
pub fn unrefused(ending: u32, steps: u32, fourth: u32, fifth: u32) -> Answer
    ensures { numbers_of result ≡ ending ∷ 0 ∷ 0 ∷ steps ∷ fourth ∷ fifth ∷ 0 ∷ 0 ∷ [] }
{
    Answer {
        ending,
        number: 0,
        place: 0,
        steps,
        fourth,
        fifth,
        line: 0,
        column: 0,
    }
}

// Two numbers of 32 bits as one of 64.
pub fn pair(low: u32, high: u32) -> u64
    ensures { (result ≡ low + 4294967296 * high) × (low < 4294967296) }
{
    (low as u64) + 4294967296 * (high as u64)
}

// Writes an answer into the bytes that are lent for it.
pub fn put_answer(answer: &mut [u8], a: Answer)
    requires { answer_size ≤ length answer.old }
    ensures { answer.new ≡ answered (numbers_of a) answer.old }
{
    put64(answer, 0, pair(a.ending, a.number));
    put64(answer, 1, pair(a.place, a.steps));
    put64(answer, 2, pair(a.fourth, a.fifth));
    put64(answer, 3, pair(a.line, a.column));
}
