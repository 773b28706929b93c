// The frames of the open BEGINs, in two cells each: the count in front, with which each alternative begins, and the greatest count behind one so far. A block
// is one alternative.
ghost use Rattle.std.specs.Prelude.{◌<◌, ltb, length};
ghost use Rattle.rules.specs.Limits.{deepest};
ghost use Rattle.counting.specs.Machine.{opened, closed, another};
ghost use Rattle.counting.specs.Holding.{Standing, Does};

use crate::counts::{Nest, greater};
use cells::{get64, put64};
use rules::limits::DEEPEST;

// BEGIN
pub fn open(room: &mut [u8], s: Nest) -> Nest
    requires { Standing room.old s }
    ensures { Does (λ z. opened (ltb (length z.frames) deepest) z) room.old s room.new result }
{
    let depth = s.depth;
    let count = s.count;
    if DEEPEST <= depth {
        return Nest { depth: 0, count };
    }
    let at = 2 * depth;
    put64(room, at, count);
    put64(room, at + 1, count);
    Nest {
        depth: depth + 1,
        count,
    }
}

// END: the dearest goes on.
pub fn close(room: &[u8], s: Nest) -> Nest
    requires { Standing room.now s }
    ensures { Does (λ z. closed z.frames z) room.now s room.now result }
{
    let depth = s.depth;
    if depth == 0 {
        return s;
    }
    let best = get64(room, 2 * depth - 1);
    Nest {
        depth: depth - 1,
        count: greater(best, s.count),
    }
}

// `,`: another alternative begins where the first did.
pub fn another(room: &mut [u8], s: Nest) -> Nest
    requires { Standing room.old s }
    ensures { Does (λ z. another z.frames z) room.old s room.new result }
{
    let depth = s.depth;
    if depth == 0 {
        return s;
    }
    let at = 2 * depth - 1;
    let base = get64(room, at - 1);
    let best = get64(room, at);
    put64(room, at, greater(best, s.count));
    Nest { depth, count: base }
}
