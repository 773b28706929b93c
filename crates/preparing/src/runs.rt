// Runs a description that is accepted: its table is completed, its carriers are judged.
ghost use Rattle.std.specs.Prelude.{ℕ, ◌≤◌, length};
ghost use Rattle.starts.specs.Starts.{Begins};
ghost use Rattle.accepted.specs.Accepted.{Accepts, table_by};
ghost use Rattle.preparing.specs.Prepared.{Prepared};
ghost use Rattle.preparing.specs.Outcome.{Outcome};

use crate::endings::ended_answer;
use lent::answers::{Answer, refusal};
use links::bodies::link;
use links::mains::main_start;
use places::placing::place;
use runner::runs::run;
use starts::start;

// Completes the table of an accepted description of n tokens: where the bits of accesses lie, and where control goes. Returns where MAIN begins.
pub fn prepare(
    text: &[u8],
    records: &mut [u8],
    values: &mut [u8],
    room: &mut [u8],
    decls: &[u8],
    m: usize,
    n: usize,
) -> usize
    requires by_index { (words : ℕ) × Accepts text.now records.old values.old decls.now m words n }
    requires in_bounds { (65536 ≤ length room.old) × (512 ≤ length decls.now) }
    ensures { (words : ℕ) (v : Accepts text.now records.old values.old decls.now m words n)
        → Prepared v records.new values.new result }
{
    place(records, values, decls, n, m, room);
    link(text, records, decls, room, m);
    main_start(records, decls, m)
}

// Runs an accepted description from carriers that are not refused.
fn run_started(
    text: &[u8],
    carriers: &mut [u8],
    budget: u32,
    records: &mut [u8],
    values: &mut [u8],
    room: &mut [u8],
    decls: &[u8],
    m: usize,
    n: usize,
) -> Answer
    requires by_index { (words : ℕ) × (v : Accepts text.now records.old values.old decls.now m words n) × Begins (table_by v) carriers.old }
    requires in_bounds { (65536 ≤ length room.old) × (512 ≤ length decls.now) }
    ensures { Outcome text.now carriers.old budget carriers.new result }
{
    let begin = prepare(text, records, values, room, decls, m, n);
    ended_answer(
        text,
        run(records, values, decls, carriers, room, begin, budget),
    )
}

// Runs an accepted description, unless its carriers are refused.
pub fn run_accepted(
    text: &[u8],
    carriers: &mut [u8],
    budget: u32,
    records: &mut [u8],
    values: &mut [u8],
    room: &mut [u8],
    decls: &[u8],
    m: usize,
    n: usize,
) -> Answer
    requires by_index { (words : ℕ) × Accepts text.now records.old values.old decls.now m words n }
    requires in_bounds { (65536 ≤ length room.old) × (512 ≤ length decls.now) }
    ensures { Outcome text.now carriers.old budget carriers.new result }
{
    match start(records, values, decls, m, carriers) {
        Err(refused) => refusal(text, refused.number, refused.place),
        Ok(()) => run_started(text, carriers, budget, records, values, room, decls, m, n),
    }
}
