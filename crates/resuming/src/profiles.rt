// The profile of a text, with its working memory.
ghost use Rattle.std.specs.Prelude.{◌≡◌, ℕ, ◌≤◌, length};
ghost use Rattle.rules.specs.Limits.{longest_text};
ghost use Rattle.rules.specs.Paths.{folded};
ghost use Rattle.rules.specs.Calls.Profile.{profile_numbers};
ghost use Rattle.paths.specs.Cited.Early.{profile};
ghost use Rattle.lent.specs.Numbers.{numbers_of};
ghost use Rattle.accepted.specs.Accepted.{Accepts, table_by};
ghost use Rattle.resuming.specs.Asked.{Asked, Lowest};
ghost use Rattle.resuming.specs.Told.{Told};

use crate::mains::main_number;
use crate::outputs::output_number;
use cells::get16;
use lent::answers::{Answer, refusal, unrefused};
use naming::names::test_number;
use profiling::rounds::{UNSEEN, rounds};
use profiling::tasks::Task;

// The lowest place at which a path writes the output too early, or UNSEEN.
fn lowest(records: &[u8], table: &mut [u8], room: &mut [u8], decls: &[u8], t: Task) -> usize
    requires { Asked records.now decls.now t × ((65536 ≤ length table.old) × (65536 ≤ length room.old)) }
    ensures { (g : Asked records.now decls.now t) → Lowest g result }
{
    let mut next: [u8; 1028] = [0; 1028];
    let main = main_number(records, decls, t.m, t.n);
    rounds(records, decls, table, &mut next, room, t);
    get16(table, 2 * main + 1) as usize
}

// The profile of an accepted description.
fn profile_accepted(
    text: &[u8],
    test: &[u8],
    output: &[u8],
    records: &[u8],
    values: &mut [u8],
    room: &mut [u8],
    decls: &[u8],
    m: usize,
    n: usize,
) -> Answer
    requires by_index { (words : ℕ) × Accepts text.now records.now values.old decls.now m words n }
    requires in_bounds { (65536 ≤ length values.old) × (65536 ≤ length room.old) }
    ensures { (words : ℕ) (v : Accepts text.now records.now values.old decls.now m words n)
        → numbers_of result ≡ profile_numbers text.now (profile (table_by v) (folded test.now) (folded output.now)) }
{
    let Some(aim) = test_number(text, records, decls, m, n, test) else {
        return refusal(text, 90, 0);
    };
    let Some(out) = output_number(text, records, values, decls, m, n, output) else {
        return refusal(text, 91, 0);
    };
    let low = lowest(records, values, room, decls, Task { m, n, aim, out });
    if low < UNSEEN {
        return refusal(text, 92, low);
    }
    unrefused(0, 0, 0, 0)
}

// What the profile of a text answers. The work memory may hold anything afterwards.
pub fn profiled(
    text: &[u8],
    test: &[u8],
    output: &[u8],
    records: &mut [u8],
    values: &mut [u8],
    room: &mut [u8],
) -> Answer
    requires { (length text.now ≤ longest_text) × ((65536 ≤ length records.old) × ((65536 ≤ length values.old) × (65536 ≤ length room.old))) }
    ensures { Told text.now test.now output.now result }
{
    let mut decls: [u8; 512] = [0; 512];
    match reader::check(text, records, values, room, &mut decls) {
        Err(refused) => refusal(text, refused.number, refused.place),
        Ok(accepted) => profile_accepted(
            text,
            test,
            output,
            records,
            values,
            room,
            &decls,
            accepted.declarations,
            accepted.tokens,
        ),
    }
}
