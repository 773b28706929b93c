// Compares a list with the run of a description that is accepted.
ghost use Rattle.std.specs.Prelude.{◌≡◌, true, List, ℕ, ◌≤◌, length};
ghost use Rattle.rules.specs.Entries.{is_list};
ghost use Rattle.reading.specs.Reading.{Reading};
ghost use Rattle.starts.specs.Starts.{Begins};
ghost use Rattle.accepted.specs.Accepted.{Accepts, table_by};
ghost use Rattle.compared.specs.Laid.{Laid};
ghost use Rattle.compared.specs.Traced.{Traced};

use crate::endings::told_answer;
use blocks::bytes::copy;
use lent::answers::{Answer, refusal};
use linking::beginning::begin;
use listed::entries::is_list;
use marking::mark;
use preparing::runs::prepare;
use starts::start;
use tracing::runs::{CELLS, trace};

// The carriers, and behind them the cells of the n tokens of a table.
fn lay(records: &[u8], carriers: &[u8], memory: &mut [u8], n: usize)
    requires by_index { (decls : List ℕ) × (m : ℕ) × Reading records.now decls m n }
    requires carriers_len_bound { (length carriers.now ≤ 32768) × (65536 ≤ length memory.old) }
    ensures { Laid records.now carriers.now memory.old memory.new n }
{
    copy(memory, 0, carriers);
    mark(records, &mut memory[CELLS..], n);
}

// Compares a list with the run of an accepted description from carriers that are not refused.
fn compare(
    text: &[u8],
    carriers: &[u8],
    budget: u32,
    entries: &[u8],
    records: &mut [u8],
    values: &mut [u8],
    room: &mut [u8],
    memory: &mut [u8],
    decls: &[u8],
    m: usize,
    n: usize,
) -> Answer
    requires by_index { (words : ℕ) × (v : Accepts text.now records.old values.old decls.now m words n) × Begins (table_by v) carriers.now }
    requires entries_value { (is_list entries.now ≡ true) × ((65536 ≤ length room.old) × ((65536 ≤ length memory.old) × (512 ≤ length decls.now))) }
    ensures { Traced text.now carriers.now budget entries.now result }
{
    let size = carriers.len();
    lay(records, carriers, memory, n);
    let first = prepare(text, records, values, room, decls, m, n);
    begin(room, entries);
    let ended = trace(
        records, values, decls, memory, room, entries, first, n, size, budget,
    );
    told_answer(text, ended, room, entries)
}

// The same, unless the list is refused.
fn compare_listed(
    text: &[u8],
    carriers: &[u8],
    budget: u32,
    entries: &[u8],
    records: &mut [u8],
    values: &mut [u8],
    room: &mut [u8],
    memory: &mut [u8],
    decls: &[u8],
    m: usize,
    n: usize,
) -> Answer
    requires by_index { (words : ℕ) × (v : Accepts text.now records.old values.old decls.now m words n) × Begins (table_by v) carriers.now }
    requires in_bounds { (65536 ≤ length room.old) × ((65536 ≤ length memory.old) × (512 ≤ length decls.now)) }
    ensures { Traced text.now carriers.now budget entries.now result }
{
    if !is_list(entries) {
        return refusal(text, 110, 0);
    }
    compare(
        text, carriers, budget, entries, records, values, room, memory, decls, m, n,
    )
}

// The same, unless the carriers are refused.
pub fn compare_accepted(
    text: &[u8],
    carriers: &[u8],
    budget: u32,
    entries: &[u8],
    records: &mut [u8],
    values: &mut [u8],
    room: &mut [u8],
    memory: &mut [u8],
    decls: &[u8],
    m: usize,
    n: usize,
) -> Answer
    requires by_index { (words : ℕ) × Accepts text.now records.old values.old decls.now m words n }
    requires in_bounds { (65536 ≤ length room.old) × ((65536 ≤ length memory.old) × (512 ≤ length decls.now)) }
    ensures { Traced text.now carriers.now budget entries.now result }
{
    match start(records, values, decls, m, carriers) {
        Err(refused) => refusal(text, refused.number, refused.place),
        Ok(()) => compare_listed(
            text, carriers, budget, entries, records, values, room, memory, decls, m, n,
        ),
    }
}
