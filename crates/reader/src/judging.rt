// The bodies and the whole: refusals 40 to 53.
ghost use Rattle.std.specs.Prelude.{◌≤◌, length};
ghost use Rattle.rules.specs.Limits.{most_declarations};
ghost use Rattle.reader.specs.Copied.{Copied};
ghost use Rattle.accepted.specs.Accepted.{Declares, Lawful};
ghost use Rattle.reader.specs.Judged.{Judges};

use bodies::all::fault40;
use cells::{get16, put16};
use declare::counting::words;
use keys::{NO_KEY, fault_of, number_fault_of};
use rules::limits::MOST_DECLARATIONS;
use rules::refusals::Refusal;
use whole::fault50;

// An accepted text has so many declarations, words and tokens.
#[derive(Clone, Copy, PartialEq, Eq)]
pub struct Accepted {
    pub declarations: usize,
    pub words: usize,
    pub tokens: usize,
}

// Keeps the declarations, of which there are few, so that the room can be used for something else.
fn keep(room: &[u8], decls: &mut [u8])
    requires { (512 ≤ length room.now) × (512 ≤ length decls.old) }
    ensures { Copied decls.new room.now most_declarations }
{
    for k in 0..MOST_DECLARATIONS {
        put16(decls, k, get16(room, k));
    }
}

// A description without faults of the 40s.
fn judge_whole(
    text: &[u8],
    records: &[u8],
    values: &[u8],
    room: &mut [u8],
    decls: &[u8],
    m: usize,
    n: usize,
) -> Result<Accepted, Refusal>
    requires lawful { Lawful text.now records.now values.now decls.now m n }
    requires in_bounds { 65536 ≤ length room.old }
    ensures { Judges text.now records.now values.now decls.now result }
{
    let key = fault50(text, records, decls, room, m, n);
    if key != NO_KEY {
        return Err(number_fault_of(key));
    }
    let count = words(records, values, decls, m);
    Ok(Accepted {
        declarations: m,
        words: count,
        tokens: n,
    })
}

// A description of n tokens whose m declarations have no fault.
fn judge_bodies(
    text: &[u8],
    records: &[u8],
    values: &[u8],
    room: &mut [u8],
    decls: &[u8],
    m: usize,
    n: usize,
) -> Result<Accepted, Refusal>
    requires declares { Declares text.now records.now values.now decls.now m n }
    requires in_bounds { 65536 ≤ length room.old }
    ensures { Judges text.now records.now values.now decls.now result }
{
    let key = fault40(records, values, decls, room, m);
    if key != NO_KEY {
        return Err(fault_of(key));
    }
    judge_whole(text, records, values, room, decls, m, n)
}

// The same, where the room has the declarations; they are kept.
pub fn judge(
    text: &[u8],
    records: &[u8],
    values: &[u8],
    room: &mut [u8],
    decls: &mut [u8],
    m: usize,
    n: usize,
) -> Result<Accepted, Refusal>
    requires declares { Declares text.now records.now values.now room.old m n }
    requires in_bounds { (65536 ≤ length room.old) × (512 ≤ length decls.old) }
    ensures { Judges text.now records.now values.now decls.new result }
{
    keep(room, decls);
    judge_bodies(text, records, values, room, decls, m, n)
}
