// Hints: behind the labels and the scopes stand cells that have, by the spelling of a label, the position where it was last stacked. A hint may be wrong, so
// nothing is promised of it, and who takes one looks whether the label stands there.
ghost use Rattle.std.specs.Prelude.{◌+◌, ◌*◌, ◌<◌, ◌≤◌, length};
ghost use Rattle.scopes.specs.Hints.{Hinting};
ghost use Rattle.room.specs.Whole.{scopes_end, hints_end};

use cells::{get16, put16};
use records::fields::link_at;
use room::whole::{HINT_COUNT, SCOPES_END};

// The cell for the spelling of the name. Spellings that are HINT_COUNT apart share one.
fn hint_cell(records: &[u8], name: usize) -> usize
    requires { 8 * name + 8 ≤ length records.now }
    ensures { (scopes_end ≤ result) × (result < hints_end) }
{
    SCOPES_END + link_at(records, name) % HINT_COUNT
}

// The hint for the name, or 0 where the labels' part is too short to have one.
// 0 is a hint like any other that may be wrong.
pub fn hint(records: &[u8], labels: &[u8], name: usize) -> usize
    requires { 8 * name + 8 ≤ length records.now }
{
    let at = hint_cell(records, name);
    if labels.len() / 2 <= at {
        return 0;
    }
    get16(labels, at) as usize
}

// The hint for the name takes its position, where the labels' part has the cell.
pub fn put_hint(records: &[u8], labels: &mut [u8], name: usize, position: usize)
    requires { (8 * name + 8 ≤ length records.now) × (position < 65536) }
    ensures { Hinting labels.old labels.new }
{
    let at = hint_cell(records, name);
    if labels.len() / 2 <= at {
        return;
    }
    put16(labels, at, position as u16);
}
