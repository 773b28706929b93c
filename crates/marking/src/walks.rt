// The walk along the tokens of a description.
ghost use Rattle.std.specs.Prelude.{◌*◌, ◌≤◌, length, drop};
ghost use Rattle.reading.specs.Reading.{Kinded};
ghost use Rattle.members.specs.Cells.{cells_in};
ghost use Rattle.marking.specs.Machine.{outset, Follows};
ghost use Rattle.marking.specs.Holding.{enough};

use crate::frames::inside;
use crate::pairs::put_pair;
use crate::steps::step;

// The declarations stand behind the description's own name, `:=` and BEGIN.
const DECLARATIONS: usize = 3;

// Each token takes its cells. The room takes the frames.
pub fn walk(records: &[u8], cells: &mut [u8], room: &mut [u8], n: usize)
    requires { Kinded records.now n × (4 * n ≤ length cells.old) × (enough ≤ length room.old) }
    ensures { (v : Kinded records.now n) → Follows (cells_in cells.new n) n outset (drop 3 v.tokens) }
{
    let mut s = inside(0, 0);
    for i in DECLARATIONS..n {
        put_pair(cells, i, s.rank, s.up);
        s = step(records, room, n, i, s);
    }
}
