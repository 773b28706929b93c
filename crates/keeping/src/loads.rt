// Load, with its working memory.
ghost use Rattle.std.specs.Prelude.{◌≤◌, length};
ghost use Rattle.rules.specs.Limits.{longest_text};
ghost use Rattle.rules.specs.Keeping.{loading};
ghost use Rattle.kept.specs.Kept.{Answered};

use kept::loads::load_accepted;
use rules::refusals::Refusal;

// What Load answers. The work memory may hold anything afterwards.
pub fn loaded(
    text: &[u8],
    image: &[u8],
    carriers: &mut [u8],
    records: &mut [u8],
    values: &mut [u8],
    room: &mut [u8],
) -> Result<(), Refusal>
    requires { (length text.now ≤ longest_text) × ((65536 ≤ length records.old) × ((65536 ≤ length values.old) × (65536 ≤ length room.old))) }
    ensures { Answered text.now (loading image.now carriers.old) carriers.old carriers.new result }
{
    let mut decls: [u8; 512] = [0; 512];
    let accepted = reader::check(text, records, values, room, &mut decls)?;
    load_accepted(
        records,
        values,
        &decls,
        accepted.declarations,
        accepted.words,
        image,
        carriers,
        room,
    )
}
