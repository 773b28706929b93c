// The reader's verdict as an answer, with its reason.
ghost use Rattle.std.specs.Prelude.{◌≤◌, length};
ghost use Rattle.rules.specs.Limits.{longest_text};
ghost use Rattle.rules.specs.Calls.Why.{reason_size};
ghost use Rattle.reporting.specs.Reported.{Reported};

use crate::numbers::put_numbers;
use checking::verdicts::checked;
use explaining::verdicts::reason_of;
use lent::answers::Answer;

// What is answered to a text, whose reason is written. The work memory may hold anything afterwards.
pub fn reported(text: &[u8], a: &mut [u8], b: &mut [u8], c: &mut [u8], reason: &mut [u8]) -> Answer
    requires text_len_bound { (length text.now ≤ longest_text) × ((65536 ≤ length a.old) × ((65536 ≤ length b.old) × (65536 ≤ length c.old))) }
    requires reason_size_in_bounds { reason_size ≤ length reason.old }
    ensures { Reported text.now reason.old reason.new result }
{
    let found = checked(text, a, b, c);
    let number = found.number;
    let place = found.place;
    let numbers = reason_of(text, a, b, c, number, place as usize);
    put_numbers(reason, numbers);
    found
}
