// The bound of a text, as an answer.
ghost use Rattle.std.specs.Prelude.{◌≡◌, List, ℕ, ◌≤◌, length};
ghost use Rattle.rules.specs.Limits.{longest_text};
ghost use Rattle.rules.specs.Calls.Bound.{bound_numbers};
ghost use Rattle.bounds.specs.Cited.Counts.{bound_by_of};
ghost use Rattle.lent.specs.Numbers.{numbers_of};
ghost use Rattle.lasting.specs.Bounded.{Told};

use bounding::mains::longest;
use counting::counts::ENDLESS;
use lent::answers::{Answer, refusal, unrefused};

// The ending of a bound, and that of none.
const BOUND: u32 = 0;

const NO_BOUND: u32 = 5;

// The numbers of MAIN's count.
fn count_answer(count: u64) -> Answer
    requires { count ≤ 4294967296 }
    ensures { (text : List ℕ) → numbers_of result ≡ bound_numbers text (bound_by_of count) }
{
    if count == ENDLESS {
        return unrefused(NO_BOUND, 0, 0, 0);
    }
    unrefused(BOUND, count as u32, 0, 0)
}

// What is answered to a text. The work memory may hold anything afterwards.
pub fn bounded(text: &[u8], a: &mut [u8], b: &mut [u8], c: &mut [u8]) -> Answer
    requires { (length text.now ≤ longest_text) × ((65536 ≤ length a.old) × ((65536 ≤ length b.old) × (65536 ≤ length c.old))) }
    ensures { Told text.now result }
{
    let mut decls: [u8; 512] = [0; 512];
    match reader::check(text, a, b, c, &mut decls) {
        Err(refused) => refusal(text, refused.number, refused.place),
        Ok(accepted) => count_answer(longest(a, &decls, c, accepted.declarations, accepted.tokens)),
    }
}
