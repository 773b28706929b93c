// How a run ended, as an answer.
ghost use Rattle.std.specs.Prelude.{◌≡◌};
ghost use Rattle.rules.specs.Steps.Runs.{faulted};
ghost use Rattle.rules.specs.Answers.{ran_numbers};
ghost use Rattle.runner.specs.Runs.{ending_of, steps_of};
ghost use Rattle.lent.specs.Numbers.{numbers_of};

use lent::answers::{Answer, unrefused};
use positions::position_of;
use runner::runs::Ended;

// Ended with a fault, at a place in the text.
pub fn fault(text: &[u8], number: u32, place: u16, steps: u32) -> Answer
    ensures { numbers_of result ≡ ran_numbers text.now (faulted number place) steps }
{
    let here = position_of(text, number, place as usize);
    Answer {
        ending: 3,
        number,
        place: place as u32,
        steps,
        fourth: 0,
        fifth: 0,
        line: here.line,
        column: here.column,
    }
}

// The numbers of how a run ended.
pub fn ended_answer(text: &[u8], e: Ended) -> Answer
    ensures { numbers_of result ≡ ran_numbers text.now (ending_of e) (steps_of e) }
{
    match e {
        Ended::Done(steps) => unrefused(0, steps, 0, 0),
        Ended::Stopped(steps) => unrefused(1, steps, 0, 0),
        Ended::Paused(steps) => unrefused(2, steps, 0, 0),
        Ended::Fault {
            number,
            place,
            steps,
        } => fault(text, number, place, steps),
    }
}
