// The cells of tokens that have the members of groups, written in one walk along the tokens of a description.
#![tactic(auto)]

ghost use Rattle.std.specs.Prelude.{List, ℕ, ◌*◌, ◌≤◌, length};
ghost use Rattle.reading.specs.Reading.{Reading};
ghost use Rattle.telling.specs.Cited.Cells.{AllMarked};
ghost use Rattle.members.specs.Cells.{cells_in};

use crate::walks::walk;

pub mod frames;
pub mod pairs;
pub mod steps;
pub mod walks;

// The bytes of the frames.
const FRAMES: usize = 128;

// The cells of the tokens of every body, in a table of n tokens. What they held before means nothing.
pub fn mark(records: &[u8], cells: &mut [u8], n: usize)
    requires { ((decls : List ℕ) × (m : ℕ) × Reading records.now decls m n) × (4 * n ≤ length cells.old) }
    ensures { (decls : List ℕ) (m : ℕ) (v : Reading records.now decls m n) → AllMarked (cells_in cells.new n) v.description n }
{
    let mut room: [u8; FRAMES] = [0; FRAMES];
    walk(records, cells, &mut room, n);
}
