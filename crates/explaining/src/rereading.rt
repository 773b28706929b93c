// A text that was refused for what its whole is, read again up to its declarations. Its tokens and its grammar are known to be sound.
ghost use Rattle.std.specs.Prelude.{◌≤◌, length};
ghost use Rattle.rules.specs.Limits.{longest_text};
ghost use Rattle.room.specs.Spelling.{room_size};
ghost use Rattle.explaining.specs.Again.{Sound, Rescanned, Rereads};

use declare::declare;
use reader::declaring::Standing;
use rules::refusals::Refusal;

// The declarations of a sound text of n tokens, once more.
fn declared(
    text: &[u8],
    records: &mut [u8],
    values: &[u8],
    decls: &mut [u8],
    n: usize,
) -> Result<Standing, Refusal>
    requires rescanned { Rescanned text.now records.old values.now n }
    requires room_size_in_bounds { room_size ≤ length decls.old }
    ensures { Rereads text.now records.new decls.new result }
{
    let m = declare(text, records, values, decls, n)?;
    Ok(Standing {
        declarations: m,
        tokens: n,
    })
}

// A sound text, once more. It is not refused.
pub fn reread(
    text: &[u8],
    records: &mut [u8],
    values: &mut [u8],
    decls: &mut [u8],
) -> Result<Standing, Refusal>
    requires sound { Sound text.now × ((length text.now ≤ longest_text) × ((65536 ≤ length records.old) × (65536 ≤ length values.old))) }
    requires room_size_in_bounds { room_size ≤ length decls.old }
    ensures { Rereads text.now records.new decls.new result }
{
    let n = text::scan(text, records, values)?;
    declared(text, records, values, decls, n)
}
