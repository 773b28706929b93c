// Run, with its working memory.
ghost use Rattle.std.specs.Prelude.{◌≤◌, length};
ghost use Rattle.rules.specs.Limits.{longest_text};
ghost use Rattle.preparing.specs.Outcome.{Outcome};

use lent::answers::{Answer, refusal};
use preparing::runs::run_accepted;

// What Run answers. The work memory may hold anything afterwards.
pub fn ran(
    text: &[u8],
    carriers: &mut [u8],
    budget: u32,
    records: &mut [u8],
    values: &mut [u8],
    room: &mut [u8],
) -> Answer
    requires { (length text.now ≤ longest_text) × ((65536 ≤ length records.old) × ((65536 ≤ length values.old) × (65536 ≤ length room.old))) }
    ensures { Outcome text.now carriers.old budget carriers.new result }
{
    let mut decls: [u8; 512] = [0; 512];
    match reader::check(text, records, values, room, &mut decls) {
        Err(refused) => refusal(text, refused.number, refused.place),
        Ok(accepted) => run_accepted(
            text,
            carriers,
            budget,
            records,
            values,
            room,
            &decls,
            accepted.declarations,
            accepted.tokens,
        ),
    }
}
