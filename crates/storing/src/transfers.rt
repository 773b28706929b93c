// Transfers: the right side is worked out first, then the subscripts of the destination, then the stores; all from left to right. A fault stores and tells nothing.
ghost use Rattle.std.specs.Prelude.{◌*◌, ◌≤◌, length};
ghost use Rattle.rules.specs.Limits.{most_words};
ghost use Rattle.rules.specs.Entries.{entries_in};
ghost use Rattle.evaluation.specs.Gathering.{GatherAt};
ghost use Rattle.evaluation.specs.Transfers.{AssignAt, TransferAt};
ghost use Rattle.matching.specs.Room.{Sound};
ghost use Rattle.storing.specs.Transfers.{FieldsTold, AssignTold, TransferTold};

use crate::parts::store_all;
use evaluation::transfers::gather;
use operands::accesses::{Field, Outside};
use operands::expressions::{access, expression};
use records::fields::{inside_at, place16_at};
use rules::limits::DEEPEST;

// A destination whose first field is known, and whose other accesses stand behind it, takes v.
fn assign_fields(
    records: &[u8],
    values: &[u8],
    carriers: &mut [u8],
    fields: &mut [u8],
    room: &mut [u8],
    entries: &[u8],
    first: Field,
    end: usize,
    v: u64,
    place: u32,
) -> Result<(), Outside>
    requires { GatherAt records.now values.now carriers.old first.word first.low first.size first.next end × ((512 ≤ length fields.old)
        × ((length carriers.old ≤ 8 * most_words) × Sound (entries_in entries.now) room.old)) }
    ensures { (g : GatherAt records.now values.now carriers.old first.word first.low first.size first.next end)
        → FieldsTold g v place carriers.new (entries_in entries.now) room.old room.new result }
{
    let gathered = gather(records, values, carriers, fields, first, end)?;
    store_all(
        carriers,
        fields,
        room,
        entries,
        gathered.count,
        gathered.bits,
        v,
        place,
    );
    Ok(())
}

// The destination from the name n up to the `=` at end takes v.
fn assign(
    records: &[u8],
    values: &[u8],
    carriers: &mut [u8],
    fields: &mut [u8],
    room: &mut [u8],
    entries: &[u8],
    n: usize,
    end: usize,
    v: u64,
) -> Result<(), Outside>
    requires { AssignAt records.now values.now carriers.old n end × ((512 ≤ length fields.old)
        × ((length carriers.old ≤ 8 * most_words) × Sound (entries_in entries.now) room.old)) }
    ensures { (d : AssignAt records.now values.now carriers.old n end)
        → AssignTold d v carriers.new (entries_in entries.now) room.old room.new result }
{
    let place = place16_at(records, n) as u32;
    let first = access(records, values, carriers, n, DEEPEST)?;
    assign_fields(
        records, values, carriers, fields, room, entries, first, end, v, place,
    )
}

// The transfer at the instruction n. The scratch may hold anything afterwards.
pub fn transfer(
    records: &[u8],
    values: &[u8],
    carriers: &mut [u8],
    fields: &mut [u8],
    room: &mut [u8],
    entries: &[u8],
    n: usize,
) -> Result<(), Outside>
    requires { TransferAt records.now values.now carriers.old n × ((512 ≤ length fields.old)
        × ((length carriers.old ≤ 8 * most_words) × Sound (entries_in entries.now) room.old)) }
    ensures { (t : TransferAt records.now values.now carriers.old n)
        → TransferTold t carriers.new (entries_in entries.now) room.old room.new result }
{
    let equals = inside_at(records, n);
    let right = expression(records, values, carriers, equals + 1, DEEPEST)?;
    assign(
        records,
        values,
        carriers,
        fields,
        room,
        entries,
        n,
        equals,
        right.number,
    )
}
