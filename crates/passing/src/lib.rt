// What control passes on its way between two instructions of a body, told to the matching. The members of groups around an instruction are followed upwards in
// the cells of tokens.
#![tactic(auto)]

mod climbing;
mod meeting;

ghost use Rattle.std.specs.Prelude.{◌*◌, ◌≤◌, List, map, length};
ghost use Rattle.rules.specs.Stores.{Entry};
ghost use Rattle.telling.specs.Cited.Passing.{group_event};
ghost use Rattle.matching.specs.Matching.{told_all};
ghost use Rattle.matching.specs.Room.{matching_in, Sound, Stands};
ghost use Rattle.room.specs.Trace.{most_groups};
ghost use Rattle.passing.specs.Ways.{between, into, out_of};
ghost use Rattle.passing.specs.Depth.{depth_after};

use crate::climbing::{depth_of, up_by};
use crate::meeting::{close_all, meet, open_all};
use members::member_of;

// Control goes from one instruction to another.
pub fn pass(room: &mut [u8], cells: &[u8], n: usize, from: usize, to: usize)
    requires { (4 * n ≤ length cells.now) × ((l : List Entry) × (Sound l room.old × (depth_after (between cells.now n from to) (length (matching_in l room.old).groups) ≤ most_groups))) }
    ensures { (l : List Entry) → Sound l room.old → Stands l room.new (told_all (map group_event (between cells.now n from to)) (matching_in l room.old)) }
{
    let x = member_of(cells, n, from);
    let y = member_of(cells, n, to);
    let depth_from = depth_of(cells, n, x);
    let depth_to = depth_of(cells, n, y);
    if depth_to <= depth_from {
        let deeper = depth_from - depth_to;
        close_all(room, deeper);
        let above = up_by(cells, n, x, deeper);
        meet(room, cells, n, depth_to, above, y, 0);
        return;
    }
    let entered = depth_to - depth_from;
    let above = up_by(cells, n, y, entered);
    meet(room, cells, n, depth_from, x, above, entered);
}

// Control comes to the first instruction of a body.
pub fn enter(room: &mut [u8], cells: &[u8], n: usize, to: usize)
    requires { (4 * n ≤ length cells.now) × ((l : List Entry) × (Sound l room.old × (depth_after (into cells.now n to) (length (matching_in l room.old).groups) ≤ most_groups))) }
    ensures { (l : List Entry) → Sound l room.old → Stands l room.new (told_all (map group_event (into cells.now n to)) (matching_in l room.old)) }
{
    let y = member_of(cells, n, to);
    let depth = depth_of(cells, n, y);
    open_all(room, depth);
}

// The body ends behind an instruction.
pub fn leave(room: &mut [u8], cells: &[u8], n: usize, from: usize)
    requires { (4 * n ≤ length cells.now) × ((l : List Entry) × Sound l room.old) }
    ensures { (l : List Entry) → Sound l room.old → Stands l room.new (told_all (map group_event (out_of cells.now n from)) (matching_in l room.old)) }
{
    let x = member_of(cells, n, from);
    let depth = depth_of(cells, n, x);
    close_all(room, depth);
}
