// The frames of the open BEGINs: the member around each, and how many members of its present group come before the present one.
ghost use Rattle.std.specs.Prelude.{◌≡◌, List, ◌+◌, ◌<◌, ◌≤◌, ltb, length};
ghost use Rattle.rules.specs.Limits.{deepest, most_tokens};
ghost use Rattle.marking.specs.Machine.{Frame, frame, begun, opened, closed, also, next};
ghost use Rattle.marking.specs.Holding.{enough, within, Enters, Frames, Shows, Standing, Does};

use crate::pairs::put_pair;
use cells::get16;
use rules::limits::DEEPEST;

// Where a walk stands: how many BEGINs are open, the member that the next token is in, and the two cells of that token.
#[derive(Clone, Copy)]
pub struct Nest {
    pub depth: usize,
    pub around: usize,
    pub rank: usize,
    pub up: usize,
}

// The next token begins no member.
pub fn inside(depth: usize, around: usize) -> Nest
    ensures { result ≡ within depth around }
{
    Nest {
        depth,
        around,
        rank: 0,
        up: around,
    }
}

// The token p begins an action of a block. It is a member if others of its group come before it, or `;` stands behind it.
fn enter(depth: usize, outer: usize, before: usize, p: usize, more: bool) -> Nest
    requires { before ≤ most_tokens }
    ensures { Enters depth outer before p more result }
{
    if more {
        return Nest {
            depth,
            around: p,
            rank: 2 * before + 1,
            up: outer,
        };
    }
    if before == 0 {
        return inside(depth, outer);
    }
    Nest {
        depth,
        around: p,
        rank: 2 * before + 2,
        up: outer,
    }
}

// The same behind the token i, in the frame of this number.
fn begin(room: &mut [u8], number: usize, outer: usize, before: usize, i: usize, more: bool) -> Nest
    requires { (number < deepest) × (enough ≤ length room.old) × (outer < 65536) × (before ≤ i + 1) × (i < most_tokens) }
    ensures { (fs : List Frame) → number ≡ length fs → Frames room.old i fs
        → Shows room.new (i + 1) result (begun (i + 1) more (frame outer before) fs) }
{
    put_pair(room, number, outer, before);
    enter(number + 1, outer, before, i + 1, more)
}

// BEGIN
pub fn open(room: &mut [u8], s: Nest, i: usize, more: bool) -> Nest
    requires { Standing room.old i s × (i < most_tokens) }
    ensures { Does i (λ z. opened (ltb (length z.frames) deepest) (i + 1) more z) room.old s room.new result }
{
    let depth = s.depth;
    let outer = s.around;
    if DEEPEST <= depth {
        return inside(depth, outer);
    }
    begin(room, depth, outer, 0, i, more)
}

// END
pub fn close(room: &[u8], s: Nest, i: usize) -> Nest
    requires { Standing room.now i s }
    ensures { Does i (λ z. closed z.frames z) room.now s room.now result }
{
    let depth = s.depth;
    if depth == 0 {
        return inside(0, s.around);
    }
    let number = depth - 1;
    let outer = get16(room, 2 * number) as usize;
    inside(number, outer)
}

// `;`: one more member of the group.
pub fn also(room: &mut [u8], s: Nest, i: usize, more: bool) -> Nest
    requires { Standing room.old i s × (i < most_tokens) }
    ensures { Does i (λ z. also z.frames (i + 1) more z) room.old s room.new result }
{
    let depth = s.depth;
    if depth == 0 {
        return inside(0, s.around);
    }
    let number = depth - 1;
    let outer = get16(room, 2 * number) as usize;
    let before = get16(room, 2 * number + 1) as usize;
    begin(room, number, outer, before + 1, i, more)
}

// NEXT: another group.
pub fn next(room: &mut [u8], s: Nest, i: usize, more: bool) -> Nest
    requires { Standing room.old i s × (i < most_tokens) }
    ensures { Does i (λ z. next z.frames (i + 1) more z) room.old s room.new result }
{
    let depth = s.depth;
    if depth == 0 {
        return inside(0, s.around);
    }
    let number = depth - 1;
    let outer = get16(room, 2 * number) as usize;
    begin(room, number, outer, 0, i, more)
}
