// Load, of an accepted description.
ghost use Rattle.std.specs.Prelude.{◌≡◌, ◌≤◌, length};
ghost use Rattle.rules.specs.Declarations.{total_words};
ghost use Rattle.starts.specs.Starts.{Starts};
ghost use Rattle.rules.specs.Images.{image_size_of, held_in};
ghost use Rattle.rules.specs.Keeping.{carriers_size, loading};
ghost use Rattle.table.specs.Ready.{Scene, table_of};
ghost use Rattle.kept.specs.Kept.{Keeping, Taken};

use images::images::{image_size, judge, read};
use rules::refusals::Refusal;
use starts::start;

// Whether the carriers that an image holds can start a run. They are unpacked into a buffer of their size.
fn start_held(
    records: &[u8],
    values: &[u8],
    decls: &[u8],
    m: usize,
    image: &[u8],
    held: &mut [u8],
) -> Result<(), Refusal>
    requires scene { Scene records.now values.now decls.now m }
    requires held_len_bound { (length held.old ≤ 32768) × (length image.now ≡ image_size_of (length held.old)) }
    ensures { (v : Scene records.now values.now decls.now m)
        → Starts (table_of v) (held_in (length held.old) image.now) result }
{
    read(image, held);
    start(records, values, decls, m, held)
}

// Takes the carriers of an image whose blocks are sound, unless one has a bit above its length.
fn load_sound(
    records: &[u8],
    values: &[u8],
    decls: &[u8],
    m: usize,
    image: &[u8],
    carriers: &mut [u8],
    room: &mut [u8],
) -> Result<(), Refusal>
    requires scene { Scene records.now values.now decls.now m }
    requires in_bounds { (65536 ≤ length room.old) × ((length carriers.old ≤ 32768) × (length image.now ≡ image_size_of (length carriers.old))) }
    ensures { (v : Scene records.now values.now decls.now m)
        → length carriers.old ≡ carriers_size (table_of v) → Taken (table_of v) image.now carriers.old carriers.new result }
{
    let size = carriers.len();
    start_held(records, values, decls, m, image, &mut room[..size])?;
    read(image, carriers);
    Ok(())
}

// Loads the carriers of an accepted description of so many words, unless a buffer is refused.
pub fn load_accepted(
    records: &[u8],
    values: &[u8],
    decls: &[u8],
    m: usize,
    words: usize,
    image: &[u8],
    carriers: &mut [u8],
    room: &mut [u8],
) -> Result<(), Refusal>
    requires words_value { (v : Scene records.now values.now decls.now m) × (words ≡ total_words (table_of v)) }
    requires in_bounds { (65536 ≤ length room.old) × (words ≤ 4096) }
    ensures { (v : Scene records.now values.now decls.now m)
        → words ≡ total_words (table_of v)
        → Keeping (loading image.now carriers.old (table_of v)) carriers.old carriers.new result }
{
    let size = 8 * words;
    let needed = image_size(size);
    if carriers.len() != size {
        return Err(Refusal {
            number: 60,
            place: 0,
        });
    }
    if image.len() != needed {
        return Err(Refusal {
            number: 62,
            place: 0,
        });
    }
    judge(image, size)?;
    load_sound(records, values, decls, m, image, carriers, room)
}
