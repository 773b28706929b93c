// The answer that says how Store and Load ended.
ghost use Rattle.std.specs.Prelude.{◌≡◌, List, ℕ};
ghost use Rattle.rules.specs.Calls.Keep.{kept_numbers};
ghost use Rattle.lent.specs.Numbers.{numbers_of};
ghost use Rattle.kept.specs.Kept.{kept_of, Near};

use lent::answers::{Answer, refusal, unrefused};
use rules::refusals::Refusal;

// The numbers of an ending.
pub fn ending_answer(text: &[u8], ending: Result<(), Refusal>) -> Answer
    requires { Near ending }
    ensures { (left : List ℕ) → numbers_of result ≡ kept_numbers text.now (kept_of ending left) }
{
    match ending {
        Err(refused) => refusal(text, refused.number, refused.place),
        Ok(()) => unrefused(0, 0, 0, 0),
    }
}
