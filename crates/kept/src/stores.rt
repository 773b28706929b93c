// Store, of an accepted description.
ghost use Rattle.std.specs.Prelude.{◌≤◌, length};
ghost use Rattle.rules.specs.Keeping.{storing};
ghost use Rattle.table.specs.Ready.{Scene, table_of};
ghost use Rattle.kept.specs.Kept.{Keeping, Written};

use images::images::{image_size, write};
use rules::refusals::Refusal;
use starts::start;

// Writes the image of carriers, unless its length is wrong.
fn write_image(carriers: &[u8], image: &mut [u8]) -> Result<(), Refusal>
    requires { length carriers.now ≤ 32768 }
    ensures { Written carriers.now image.old image.new result }
{
    if image.len() != image_size(carriers.len()) {
        return Err(Refusal {
            number: 62,
            place: 0,
        });
    }
    write(image, carriers);
    Ok(())
}

// Stores the carriers of an accepted description, unless they are refused.
pub fn store_accepted(
    records: &[u8],
    values: &[u8],
    decls: &[u8],
    m: usize,
    carriers: &[u8],
    image: &mut [u8],
) -> Result<(), Refusal>
    requires { Scene records.now values.now decls.now m }
    ensures { (v : Scene records.now values.now decls.now m)
        → Keeping (storing carriers.now image.old (table_of v)) image.old image.new result }
{
    start(records, values, decls, m, carriers)?;
    write_image(carriers, image)
}
