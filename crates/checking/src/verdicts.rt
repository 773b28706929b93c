// The reader's verdict, as an answer.
ghost use Rattle.std.specs.Prelude.{◌≡◌, ◌≤◌, length};
ghost use Rattle.rules.specs.Limits.{longest_text};
ghost use Rattle.rules.specs.Answers.{verdict_numbers};
ghost use Rattle.lent.specs.Numbers.{numbers_of};
ghost use Rattle.checking.specs.Checked.{verdict_of, Near, Told};

use lent::answers::{Answer, refusal, unrefused};
use reader::judging::Accepted;
use rules::refusals::Refusal;

// The numbers of the reader's verdict.
fn verdict_answer(text: &[u8], v: Result<Accepted, Refusal>) -> Answer
    requires { Near v }
    ensures { numbers_of result ≡ verdict_numbers text.now (verdict_of v) }
{
    match v {
        Err(refused) => refusal(text, refused.number, refused.place),
        Ok(accepted) => unrefused(0, 0, accepted.declarations as u32, accepted.words as u32),
    }
}

// What Check answers to a text. The work memory may hold anything afterwards.
pub fn checked(text: &[u8], a: &mut [u8], b: &mut [u8], c: &mut [u8]) -> Answer
    requires { (length text.now ≤ longest_text) × ((65536 ≤ length a.old) × ((65536 ≤ length b.old) × (65536 ≤ length c.old))) }
    ensures { Told text.now result }
{
    let mut decls: [u8; 512] = [0; 512];
    verdict_answer(text, reader::check(text, a, b, c, &mut decls))
}
