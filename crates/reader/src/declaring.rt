// Declarations: refusals 10 to 33.
ghost use Rattle.std.specs.Prelude.{◌≤◌, length};
ghost use Rattle.rules.specs.Limits.{longest_text};
ghost use Rattle.room.specs.Spelling.{room_size};
ghost use Rattle.reader.specs.Parsed.{Stands};
ghost use Rattle.reader.specs.Read.{Reads};

use crate::parsing::parse;
use declare::declare;
use rules::refusals::Refusal;

// A description stands in the table with its names resolved, and has so many declarations and tokens.
#[derive(Clone, Copy, PartialEq, Eq)]
pub struct Standing {
    pub declarations: usize,
    pub tokens: usize,
}

// Judges the declarations of a description of n tokens that stands in the table.
fn declared(
    text: &[u8],
    records: &mut [u8],
    values: &[u8],
    decls: &mut [u8],
    n: usize,
) -> Result<Standing, Refusal>
    requires stands { Stands text.now records.old values.now n }
    requires room_size_in_bounds { room_size ≤ length decls.old }
    ensures { Reads text.now records.new values.now decls.new result }
{
    let m = declare(text, records, values, decls, n)?;
    Ok(Standing {
        declarations: m,
        tokens: n,
    })
}

// Reads a text up to its declarations.
pub fn read(
    text: &[u8],
    records: &mut [u8],
    values: &mut [u8],
    decls: &mut [u8],
) -> Result<Standing, Refusal>
    requires text_len_bound { (length text.now ≤ longest_text) × ((65536 ≤ length records.old) × (65536 ≤ length values.old)) }
    requires room_size_in_bounds { room_size ≤ length decls.old }
    ensures { Reads text.now records.new values.new decls.new result }
{
    let n = parse(text, records, values)?;
    declared(text, records, values, decls, n)
}
