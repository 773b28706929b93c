// Store and Load: carriers of an accepted text kept as an image, and an image taken as carriers.
#![tactic(auto)]

mod endings;
mod loads;
mod stores;

ghost use Rattle.rules.specs.Calls.Memory.{memory};
ghost use Rattle.rules.specs.Calls.Keep.{StoreCall, LoadCall};

use crate::endings::ending_answer;
use crate::loads::loaded;
use crate::stores::stored;
use lent::memory::unread;
use lent::settling::settle;

// Writes the image of the carriers. Returns the number of the answer, which stands in `answer` unless it is 1 or 2.
pub fn store(
    text: &[u8],
    carriers: &[u8],
    image: &mut [u8],
    a: &mut [u8],
    b: &mut [u8],
    c: &mut [u8],
    answer: &mut [u8],
) -> u32
    ensures { StoreCall text.now carriers.now image.old (memory a.old b.old c.old answer.old)
        (memory a.new b.new c.new answer.new) image.new result }
{
    if let Some(refused) = unread(text, a, b, c, answer) {
        return refused;
    }
    let found = ending_answer(text, stored(text, carriers, image, a, b, c));
    settle(a, b, c, answer, found);
    found.number
}

// Takes the carriers that an image holds. Returns the number of the answer, which stands in `answer` unless it is 1 or 2.
pub fn load(
    text: &[u8],
    image: &[u8],
    carriers: &mut [u8],
    a: &mut [u8],
    b: &mut [u8],
    c: &mut [u8],
    answer: &mut [u8],
) -> u32
    ensures { LoadCall text.now image.now carriers.old (memory a.old b.old c.old answer.old)
        (memory a.new b.new c.new answer.new) carriers.new result }
{
    if let Some(refused) = unread(text, a, b, c, answer) {
        return refused;
    }
    let found = ending_answer(text, loaded(text, image, carriers, a, b, c));
    settle(a, b, c, answer, found);
    found.number
}
