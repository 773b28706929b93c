// Transfers: the right side is worked out first, then the subscripts of the destination, then the stores; all from left to right.
ghost use Rattle.std.specs.Prelude.{◌≡◌, ◌+◌, ◌*◌, ◌<◌, ◌≤◌, length};
ghost use Rattle.operands.specs.Cells.{cell_first, cell_low, cell_bits};
ghost use Rattle.evaluation.specs.Stores.{Put, StoresAt, StoresAnswer};
ghost use Rattle.evaluation.specs.Gathering.{GatherAt, GatherAnswer};
ghost use Rattle.evaluation.specs.Transfers.{AssignAt, AssignAnswer, JoinedAnswer, TransferAt, TransferAnswer};

use cells::{get64, put64};
use operands::accesses::{Field, Outside};
use operands::expressions::{access, expression};
use records::fields::inside_at;
use rules::limits::DEEPEST;
use values::fields::{part, with_field};

// The fields of a joined destination: how many stand in the scratch, and their bits together.
#[derive(Clone, Copy)]
pub struct Fields {
    pub count: usize,
    pub bits: u32,
}

// Some bits of a word take the lowest of v.
pub fn store(carriers: &mut [u8], word: usize, low: u32, size: u32, v: u64)
    requires { (8 * word + 8 ≤ length carriers.old) × ((low < 64) × (low + size ≤ 64)) }
    ensures { Put carriers.old carriers.new word low size v }
{
    let old = get64(carriers, word);
    put64(carriers, word, with_field(low, size, old, v));
}

// A field as one number, its parts where an access cell has them.
fn packed(field: Field) -> u64
    requires { (field.word < 65536) × ((field.low < 256) × (field.size < 256)) }
    ensures { (cell_first result ≡ field.word) × ((cell_low result ≡ field.low) × (cell_bits result ≡ field.size)) }
{
    field.word as u64 + 65536 * field.low as u64 + 16777216 * field.size as u64
}

// All fields of a joined destination, before any store: the first is known, and the others stand behind it.
pub fn gather(
    records: &[u8],
    values: &[u8],
    carriers: &[u8],
    fields: &mut [u8],
    first: Field,
    end: usize,
) -> Result<Fields, Outside>
    requires { GatherAt records.now values.now carriers.now first.word first.low first.size first.next end × (512 ≤ length fields.old) }
    ensures { (v : GatherAt records.now values.now carriers.now first.word first.low first.size first.next end)
        → GatherAnswer v fields.new result }
{
    put64(fields, 0, packed(first));
    let mut count: usize = 1;
    let mut bits = first.size;
    let mut at = first.next;
    // A while: the accesses end at a place, and their number is not known before.
    while at != end {
        let more = access(records, values, carriers, at + 1, DEEPEST)?;
        put64(fields, count, packed(more));
        count += 1;
        bits += more.size;
        at = more.next;
    }
    Ok(Fields { count, bits })
}

// The stores: v is cut up left to right.
fn store_all(carriers: &mut [u8], fields: &[u8], count: usize, bits: u32, v: u64)
    requires { StoresAt carriers.old fields.now count bits × (8 * count ≤ length fields.now) }
    ensures { (s : StoresAt carriers.old fields.now count bits) → StoresAnswer s v carriers.new }
{
    let mut rest = bits;
    for k in 0..count {
        let f = get64(fields, k);
        let size = (f / 16777216 % 256) as u32;
        store(
            carriers,
            (f % 65536) as usize,
            (f / 65536 % 256) as u32,
            size,
            part(rest, size, v),
        );
        rest -= size;
    }
}

// A joined destination takes v.
fn assign_joined(
    records: &[u8],
    values: &[u8],
    carriers: &mut [u8],
    fields: &mut [u8],
    first: Field,
    end: usize,
    v: u64,
) -> Result<(), Outside>
    requires { GatherAt records.now values.now carriers.old first.word first.low first.size first.next end × (512 ≤ length fields.old) }
    ensures { (g : GatherAt records.now values.now carriers.old first.word first.low first.size first.next end)
        → JoinedAnswer g v carriers.new result }
{
    let gathered = gather(records, values, carriers, fields, first, end)?;
    store_all(carriers, fields, gathered.count, gathered.bits, v);
    Ok(())
}

// The destination from the name n up to the `=` at end takes v.
fn assign(
    records: &[u8],
    values: &[u8],
    carriers: &mut [u8],
    fields: &mut [u8],
    n: usize,
    end: usize,
    v: u64,
) -> Result<(), Outside>
    requires { AssignAt records.now values.now carriers.old n end × (512 ≤ length fields.old) }
    ensures { (d : AssignAt records.now values.now carriers.old n end)
        → AssignAnswer d v carriers.new result }
{
    let first = access(records, values, carriers, n, DEEPEST)?;
    if first.next == end {
        store(carriers, first.word, first.low, first.size, v);
        return Ok(());
    }
    assign_joined(records, values, carriers, fields, first, end, v)
}

// The transfer at the instruction n. The scratch may hold anything afterwards.
pub fn transfer(
    records: &[u8],
    values: &[u8],
    carriers: &mut [u8],
    fields: &mut [u8],
    n: usize,
) -> Result<(), Outside>
    requires { TransferAt records.now values.now carriers.old n × (512 ≤ length fields.old) }
    ensures { (t : TransferAt records.now values.now carriers.old n)
        → TransferAnswer t carriers.new result }
{
    let equals = inside_at(records, n);
    let right = expression(records, values, carriers, equals + 1, DEEPEST)?;
    assign(records, values, carriers, fields, n, equals, right.number)
}
