// The answer about a list, by how the run ended.
ghost use Rattle.std.specs.Prelude.{◌≡◌, [], ◌∷◌, length};
ghost use Rattle.rules.specs.Entries.{entries_in};
ghost use Rattle.rules.specs.Calls.Trace.{says_yes, first_bad, trace_numbers};
ghost use Rattle.matching.specs.Matching.{answer_in};
ghost use Rattle.matching.specs.Named.{verdict_of};
ghost use Rattle.matching.specs.Room.{matching_in, Sound};
ghost use Rattle.lent.specs.Numbers.{numbers_of};
ghost use Rattle.compared.specs.Traced.{trace_of};

use lent::answers::{Answer, unrefused};
use matching::answering::{Mismatch, answer};
use preparing::endings::fault;
use runner::runs::Ended;

// The numbers of a verdict, with the code of the ending.
fn verdict_answer(ending: u32, steps: u32, v: Result<(), Mismatch>) -> Answer
    ensures { numbers_of result ≡ ending ∷ 0 ∷ 0 ∷ steps ∷ says_yes (verdict_of v) ∷ first_bad (verdict_of v) ∷ 0 ∷ 0 ∷ [] }
{
    match v {
        Ok(()) => unrefused(ending, steps, 1, 0),
        Err(mismatch) => unrefused(ending, steps, 0, mismatch.entry as u32),
    }
}

// The numbers of an ending. Where it is Done or Stopped, the matching has the verdict.
pub fn told_answer(text: &[u8], e: Ended, room: &[u8], entries: &[u8]) -> Answer
    requires { Sound (entries_in entries.now) room.now }
    ensures { numbers_of result ≡ trace_numbers text.now (trace_of e (answer_in (matching_in (entries_in entries.now) room.now) (length (entries_in entries.now)))) }
{
    match e {
        Ended::Done(steps) => verdict_answer(0, steps, answer(room, entries)),
        Ended::Stopped(steps) => verdict_answer(1, steps, answer(room, entries)),
        Ended::Paused(steps) => unrefused(2, steps, 0, 0),
        Ended::Fault {
            number,
            place,
            steps,
        } => fault(text, number, place, steps),
    }
}
