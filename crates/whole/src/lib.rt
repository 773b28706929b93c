// What is refused of a whole description: MAIN, chains of activations, jumps and STOP in groups, races.
#![tactic(auto)]

pub mod groups;
pub mod walks;

ghost use Rattle.std.specs.Prelude.{◌≡◌, false, ◌≤◌, length};
ghost use Rattle.rules.specs.Declarations.{Word};
ghost use Rattle.rules.specs.Whole.Sets.{chain_over};
ghost use Rattle.rules.specs.Limits.{longest_chain};
ghost use Rattle.rules.specs.Faults.Whole.{faults50};
ghost use Rattle.keys.specs.Keys.{least_number_key};
ghost use Rattle.reading.specs.Reading.{Reading, table_of};
ghost use Rattle.room.specs.Whole.{room_size};
ghost use Rattle.whole.specs.Written.{Written, whole};
ghost use Rattle.whole.specs.WalkKeys.{Roomy};

use crate::walks::groups_key;
use chains::chains::chain_key;
use chains::mains::main_key;
use gathering::gathering::gather_all;
use keys::{NO_KEY, earlier};
use room::whole::LABELS_BYTE;

// Gathers what the bodies touch in the front of the room.
fn gather_in(records: &[u8], decls: &[u8], room: &mut [u8], m: usize, n: usize)
    requires { Reading records.now decls.now m n × ((room_size ≤ length room.old)
        × ((v : Reading records.now decls.now m n) (w : Word) → chain_over (table_of v) longest_chain w ≡ false)) }
    ensures { Roomy records.now decls.now room.new m n }
{
    gather_all(records, decls, &mut room[..LABELS_BYTE], m, n);
}

// The least key of 50 to 53 of a description, or `NO_KEY`. The number counts first, so 50 and 51 hide the others.
pub fn fault50(
    text: &[u8],
    records: &[u8],
    decls: &[u8],
    room: &mut [u8],
    m: usize,
    n: usize,
) -> u32
    requires { Written text.now records.now decls.now m n × (room_size ≤ length room.old) }
    ensures { (v : Written text.now records.now decls.now m n) → result ≡ least_number_key (faults50 (whole v)) }
{
    let first = earlier(
        main_key(records, decls, m, n),
        chain_key(records, decls, m, n),
    );
    if first != NO_KEY {
        return first;
    }
    gather_in(records, decls, room, m, n);
    groups_key(text, records, decls, room, m, n)
}
