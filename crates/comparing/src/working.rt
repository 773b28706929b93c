// Trace, with its working memory.
ghost use Rattle.std.specs.Prelude.{◌≤◌, length};
ghost use Rattle.rules.specs.Limits.{longest_text};
ghost use Rattle.compared.specs.Traced.{Traced};

use compared::runs::compare_accepted;
use lent::answers::{Answer, refusal};

// What Trace answers. The work memory may hold anything afterwards.
pub fn traced(
    text: &[u8],
    carriers: &[u8],
    budget: u32,
    entries: &[u8],
    records: &mut [u8],
    values: &mut [u8],
    room: &mut [u8],
    memory: &mut [u8],
) -> Answer
    requires { (length text.now ≤ longest_text) × ((65536 ≤ length records.old) × ((65536 ≤ length values.old) × ((65536 ≤ length room.old) × (65536 ≤ length memory.old)))) }
    ensures { Traced text.now carriers.now budget entries.now result }
{
    let mut decls: [u8; 512] = [0; 512];
    match reader::check(text, records, values, room, &mut decls) {
        Err(refused) => refusal(text, refused.number, refused.place),
        Ok(accepted) => compare_accepted(
            text,
            carriers,
            budget,
            entries,
            records,
            values,
            room,
            memory,
            &decls,
            accepted.declarations,
            accepted.tokens,
        ),
    }
}
