// What is passed on the way, told one by one: groups that end, a next member, groups that begin.
ghost use Rattle.std.specs.Prelude.{◌+◌, ◌*◌, ◌≤◌, List, length};
ghost use Rattle.rules.specs.Limits.{deepest};
ghost use Rattle.rules.specs.Stores.{Entry};
ghost use Rattle.traces.specs.Cited.Events.{opens, closes};
ghost use Rattle.telling.specs.Cited.Passing.{times};
ghost use Rattle.members.specs.Cells.{cells_in};
ghost use Rattle.matching.specs.Matching.{told_all};
ghost use Rattle.matching.specs.Room.{matching_in, Sound, Stands};
ghost use Rattle.passing.specs.Climbing.{meet_told};
ghost use Rattle.passing.specs.Depth.{Fits};

use members::{rank_at, up_at};
use noting::telling::{tell_closes, tell_opens, tell_turns};

// The least rank of a member that is not the first of its group.
const SECOND: usize = 3;

// So many groups begin.
pub fn open_all(room: &mut [u8], count: usize)
    requires { (l : List Entry) × Fits (times count opens) l room.old }
    ensures { (l : List Entry) → Sound l room.old → Stands l room.new (told_all (times count opens) (matching_in l room.old)) }
{
    for _k in 0..count {
        tell_opens(room);
    }
}

// So many groups end.
pub fn close_all(room: &mut [u8], count: usize)
    requires { (l : List Entry) × Sound l room.old }
    ensures { (l : List Entry) → Sound l room.old → Stands l room.new (told_all (times count closes) (matching_in l room.old)) }
{
    for _k in 0..count {
        tell_closes(room);
    }
}

// The way up from two members, with as many members from each, to one that they are both in, or to two of one group; and down again.
pub fn meet(
    room: &mut [u8],
    cells: &[u8],
    n: usize,
    depth: usize,
    from: usize,
    to: usize,
    entered: usize,
)
    requires { (4 * n ≤ length cells.now) × (depth + entered ≤ deepest) × ((l : List Entry) × Fits (meet_told (cells_in cells.now n) depth from to entered) l room.old) }
    ensures { (l : List Entry) → Sound l room.old → Stands l room.new (told_all (meet_told (cells_in cells.now n) depth from to entered) (matching_in l room.old)) }
{
    let mut x = from;
    let mut y = to;
    let mut count = entered;
    for _k in 0..depth {
        if x == y {
            open_all(room, count);
            return;
        }
        if SECOND <= rank_at(cells, n, y) {
            tell_turns(room);
            open_all(room, count);
            return;
        }
        tell_closes(room);
        x = up_at(cells, n, x);
        y = up_at(cells, n, y);
        count += 1;
    }
    open_all(room, count);
}
