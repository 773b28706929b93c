// One turn: a run of one of the two descriptions on the table.
ghost use Rattle.std.specs.Prelude.{◌≡◌, ◌*◌, ◌≤◌, length};
ghost use Rattle.rules.specs.Declarations.{Table, total_words};
ghost use Rattle.rules.specs.Pair.{side_of};
ghost use Rattle.pair_turns.specs.Words.{Sees};
ghost use Rattle.pair_turns.specs.Turns.{Runnable, FrontRun, seeing, Turned, Sides};

use crate::words::{put_back, take_out};
use runner::runs::{Ended, run};

// Runs a description of w words on the front of the bytes.
fn front_run(
    records: &[u8],
    values: &[u8],
    decls: &[u8],
    begin: usize,
    w: usize,
    words: &mut [u8],
    scratch: &mut [u8],
    budget: u32,
) -> Ended
    requires runnable { (ds : Table) × Runnable records.now values.now decls.now begin ds × (w ≡ total_words ds) }
    requires w_in_bounds { (8 * w ≤ length words.old) × (512 ≤ length scratch.old) }
    ensures { (ds : Table) → Runnable records.now values.now decls.now begin ds → w ≡ total_words ds
        → FrontRun ds w budget words.old words.new result }
{
    run(
        records,
        values,
        decls,
        &mut words[..8 * w],
        scratch,
        begin,
        budget,
    )
}

// A turn of the second description: its w words are taken out, it runs on them, and they are put back.
fn second_turn(
    records: &[u8],
    values: &[u8],
    decls: &[u8],
    begin: usize,
    w: usize,
    view: &[u8],
    carriers: &mut [u8],
    own: &mut [u8],
    scratch: &mut [u8],
    budget: u32,
) -> Ended
    requires runnable { (ds : Table) × Runnable records.now values.now decls.now begin ds × (w ≡ total_words ds) }
    requires sees { Sees view.now w (length carriers.old) × ((8 * w ≤ length own.old) × (512 ≤ length scratch.old)) }
    ensures { (ds : Table) → Runnable records.now values.now decls.now begin ds → w ≡ total_words ds
        → Turned (seeing ds w view.now) budget carriers.old carriers.new result }
{
    take_out(view, w, carriers, own);
    let ended = front_run(records, values, decls, begin, w, own, scratch, budget);
    put_back(view, w, own, carriers);
    ended
}

// A turn of a side, 0 or another: the first description's words are the front of the table, where it runs.
pub fn turn(
    records0: &[u8],
    values0: &[u8],
    decls0: &[u8],
    begin0: usize,
    w0: usize,
    records1: &[u8],
    values1: &[u8],
    decls1: &[u8],
    begin1: usize,
    w1: usize,
    view: &[u8],
    carriers: &mut [u8],
    own: &mut [u8],
    scratch: &mut [u8],
    side: u8,
    budget: u32,
) -> Ended
    requires sides { Sides records0.now values0.now decls0.now begin0 w0 records1.now values1.now decls1.now begin1 w1 view.now
        (length carriers.old) }
    requires w1_in_bounds { (8 * w1 ≤ length own.old) × (512 ≤ length scratch.old) }
    ensures { (v : Sides records0.now values0.now decls0.now begin0 w0 records1.now values1.now
        decls1.now begin1 w1 view.now (length carriers.old))
        → Turned (side_of v.first v.second side) budget carriers.old carriers.new result }
{
    if side == 0 {
        return front_run(
            records0, values0, decls0, begin0, w0, carriers, scratch, budget,
        );
    }
    second_turn(
        records1, values1, decls1, begin1, w1, view, carriers, own, scratch, budget,
    )
}
