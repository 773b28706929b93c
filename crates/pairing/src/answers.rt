// The answer to two texts: the numbers of a refusal or of a run, with the side as number 4.
ghost use Rattle.std.specs.Prelude.{◌≡◌, [], ◌<◌, set};
ghost use Rattle.rules.specs.Pair.{turned_down, together};
ghost use Rattle.rules.specs.Calls.Pair.{pair_numbers};
ghost use Rattle.lent.specs.Numbers.{numbers_of};
ghost use Rattle.runner.specs.Runs.{ending_of, steps_of};
ghost use Rattle.pairing.specs.Outcome.{BadTurn, Tells};

use lent::answers::{Answer, refusal};
use pair_turns::taking::Last;
use preparing::endings::ended_answer;

// An answer with a side.
fn with_side(a: Answer, side: u32) -> Answer
    ensures { numbers_of result ≡ set (numbers_of a) 4 side }
{
    Answer {
        ending: a.ending,
        number: a.number,
        place: a.place,
        steps: a.steps,
        fourth: side,
        fifth: a.fifth,
        line: a.line,
        column: a.column,
    }
}

// How the last turn ended, with its side.
pub fn last_answer(first: &[u8], second: &[u8], last: Last) -> Answer
    ensures { numbers_of result ≡ pair_numbers first.now second.now
        (together (ending_of last.ended) last.side (steps_of last.ended) []) }
{
    let ended = last.ended;
    let side = last.side as u32;
    if side == 0 {
        return with_side(ended_answer(first, ended), side);
    }
    with_side(ended_answer(second, ended), side)
}

// Refused at an offset in the list of turns, which may be a long one: the answer has its low 32 bits.
fn bad_turn(offset: usize, side: u32) -> Answer
    ensures { BadTurn offset side result }
{
    Answer {
        ending: 4,
        number: 81,
        place: (offset % 4294967296) as u32,
        steps: 0,
        fourth: side,
        fifth: 0,
        line: 1,
        column: 1,
    }
}

// Refused, with a number and a place in the text of a side, or in the list of turns.
pub fn refused_answer(first: &[u8], second: &[u8], side: u32, number: u32, place: usize) -> Answer
    requires { (number ≡ 81 → ⊥) → place < 65536 }
    ensures { Tells first.now second.now (turned_down side number place) result }
{
    if number == 81 {
        return bad_turn(place, side);
    }
    if side == 0 {
        return with_side(refusal(first, number, place), side);
    }
    with_side(refusal(second, number, place), side)
}
