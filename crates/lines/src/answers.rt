// An answer of the calls.
ghost use Rattle.std.specs.Prelude.{◌≡◌, ◌+◌, ◌*◌, ◌≤◌, length};
ghost use Rattle.cells.specs.Cells.{cell};
ghost use Rattle.lines.specs.Answers.{ending_of, ending_in, count_in, Reads};

use cells::get16;

// How a call ended; or a code for it that no call writes.
#[derive(Clone, Copy, PartialEq, Eq)]
pub enum Ending {
    Done,
    Stopped,
    Paused,
    Fault,
    Refused,
    Unbounded,
    Other(u64),
}

#[derive(Clone, Copy)]
pub struct Answer {
    pub ending: Ending,
    pub number: u64,
    pub place: u64,
    pub steps: u64,
    pub declarations: u64,
    pub words: u64,
    pub line: u64,
    pub column: u64,
}

// The number i of an answer, or of any such numbers.
pub fn get32(answer: &[u8], i: usize) -> u64
    requires { 4 * i + 4 ≤ length answer.now }
    ensures { result ≡ cell 4 answer.now i }
{
    u64::from(get16(answer, 2 * i)) + 65536 * u64::from(get16(answer, 2 * i + 1))
}

// By the code that an answer has for it.
fn ending_of(code: u64) -> Ending
    ensures { result ≡ ending_of code }
{
    match code {
        0 => Ending::Done,
        1 => Ending::Stopped,
        2 => Ending::Paused,
        3 => Ending::Fault,
        4 => Ending::Refused,
        5 => Ending::Unbounded,
        _ => Ending::Other(code),
    }
}

fn ending_in(number: u64, answer: &[u8]) -> Ending
    requires { 4 ≤ length answer.now }
    ensures { result ≡ ending_in number answer.now }
{
    match number {
        1 | 2 => Ending::Refused,
        _ => ending_of(get32(answer, 0)),
    }
}

// The line or the column, which is the number i.
fn count_in(number: u64, answer: &[u8], i: usize) -> u64
    requires { 4 * i + 4 ≤ length answer.now }
    ensures { result ≡ count_in number answer.now i }
{
    match number {
        1 | 2 => 1,
        _ => get32(answer, i),
    }
}

// What a call answers by the number that it returns and the eight that it writes.
pub fn answer_of(number: u32, answer: &[u8]) -> Answer
    requires { 32 ≤ length answer.now }
    ensures { Reads number answer.now result }
{
    let number = u64::from(number);
    Answer {
        ending: ending_in(number, answer),
        number,
        place: get32(answer, 2),
        steps: get32(answer, 3),
        declarations: get32(answer, 4),
        words: get32(answer, 5),
        line: count_in(number, answer, 6),
        column: count_in(number, answer, 7),
    }
}
