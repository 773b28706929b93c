// The frames of the open BEGINs, in six cells each, and what BEGIN, END, `;`, NEXT and `,` do to them.
ghost use Rattle.std.specs.Prelude.{◌≡◌, true, false, ◌+◌, ◌*◌, ◌<◌, ◌≤◌, ltb, length};
ghost use Rattle.rules.specs.Limits.{deepest};
ghost use Rattle.room.specs.Profile.{room_size};
ghost use Rattle.nesting.specs.Machine.{opened, closed, also, next, another};
ghost use Rattle.nesting.specs.Holding.{bit, Standing, Does, Top, Pushed};
ghost use Rattle.nesting.specs.Grouping.{settle, enter, Three, Resuming, Resumed};

use crate::nests::{Nest, both, flag_at, mark, take};
use cells::{get16, put16};
use room::profile::FRAMES;
use rules::limits::DEEPEST;

// How many labels are around it and the flag at its end, its own flag; whether control comes to the present group, whether all of its members so far have
// ended, whether it is a block.
#[derive(Clone, Copy)]
pub struct Frame {
    pub label: usize,
    pub flag: usize,
    pub own: usize,
    pub comes: bool,
    pub ended: bool,
    pub group: bool,
}

// The innermost frame.
fn top(room: &[u8], depth: usize) -> Frame
    requires { (0 < depth) × (depth ≤ deepest) × (room_size ≤ length room.now) }
    ensures { Top room.now depth result }
{
    let at = FRAMES + 6 * (depth - 1);
    Frame {
        label: get16(room, at) as usize,
        flag: get16(room, at + 1) as usize,
        own: get16(room, at + 2) as usize,
        comes: flag_at(room, at + 3),
        ended: flag_at(room, at + 4),
        group: flag_at(room, at + 5),
    }
}

fn bit(b: bool) -> usize
    ensures { (result ≡ bit b) × (result < 65536) }
{
    b as usize
}

// Three cells.
fn put3(room: &mut [u8], at: usize, a: usize, b: usize, c: usize)
    requires { (2 * at + 6 ≤ length room.old) × (a < 65536) × (b < 65536) × (c < 65536) }
    ensures { Three room.old room.new at a b c }
{
    put16(room, at, a as u16);
    put16(room, at + 1, b as u16);
    put16(room, at + 2, c as u16);
}

// The frame number j.
fn push(room: &mut [u8], j: usize, f: Frame)
    requires { (j < deepest) × (room_size ≤ length room.old) × (f.label < 65536) × (f.flag < 65536) × (f.own < 65536) }
    ensures { Pushed room.old room.new j f }
{
    let at = FRAMES + 6 * j;
    put3(room, at, f.label, f.flag, f.own);
    put3(room, at + 3, bit(f.comes), bit(f.ended), bit(f.group));
}

// Between two actions.
fn settled(depth: usize, free: usize, label: usize, low: usize) -> Nest
    ensures { result ≡ settle depth free label low }
{
    Nest {
        depth,
        free,
        label,
        flag: 0,
        comes: false,
        choosing: false,
        destination: None,
        low,
    }
}

// END: a block has ended if its last group has.
pub fn close(room: &mut [u8], s: Nest) -> Nest
    requires { Standing room.old s }
    ensures { Does (λ z. closed z.frames z) room.old s room.new result }
{
    let depth = s.depth;
    let low = s.low;
    if depth == 0 {
        return s;
    }
    let f = top(room, depth);
    let own = f.own;
    let ended = both(f.ended, flag_at(room, own));
    mark(room, f.flag, both(f.group, ended));
    settled(depth - 1, own, f.label, low)
}

// The frame, in which a member begins that control comes to or not; and whether all members before it have ended.
fn resume(room: &mut [u8], s: Nest, f: Frame, comes: bool, ended: bool) -> Nest
    requires { Resuming room.old s f }
    ensures { Resumed room.old room.new s f comes ended result }
{
    push(room, s.depth - 1, Frame { comes, ended, ..f });
    Nest {
        label: f.label,
        flag: f.own,
        comes,
        choosing: false,
        destination: None,
        ..s
    }
}

// `;`
pub fn also(room: &mut [u8], s: Nest) -> Nest
    requires { Standing room.old s }
    ensures { Does (λ z. also z.frames z) room.old s room.new result }
{
    let depth = s.depth;
    if depth == 0 {
        return s;
    }
    let f = top(room, depth);
    let own = f.own;
    let comes = f.comes;
    let ended = both(f.ended, take(room, own));
    resume(room, s, f, comes, ended)
}

// NEXT waits for all members.
pub fn next(room: &mut [u8], s: Nest) -> Nest
    requires { Standing room.old s }
    ensures { Does (λ z. next z.frames z) room.old s room.new result }
{
    let depth = s.depth;
    if depth == 0 {
        return s;
    }
    let f = top(room, depth);
    let own = f.own;
    let ended = both(f.ended, take(room, own));
    resume(room, s, f, ended, true)
}

// `,`
pub fn another(room: &[u8], s: Nest) -> Nest
    requires { Standing room.now s }
    ensures { Does (λ z. another z.frames z) room.now s room.now result }
{
    let depth = s.depth;
    if depth == 0 {
        return s;
    }
    let f = top(room, depth);
    Nest {
        label: f.label,
        flag: f.flag,
        comes: f.comes,
        choosing: false,
        destination: None,
        ..s
    }
}

// BEGIN of a block, or of the alternatives of a DECODE.
pub fn open(room: &mut [u8], s: Nest) -> Nest
    requires { Standing room.old s }
    ensures { Does (λ z. opened (ltb (length z.frames) deepest) z) room.old s room.new result }
{
    let depth = s.depth;
    let free = s.free;
    let low = s.low;
    if DEEPEST <= depth {
        return settled(0, 0, 0, low);
    }
    let choosing = s.choosing;
    let frame = Frame {
        label: s.label,
        flag: s.flag,
        own: free,
        comes: s.comes,
        ended: true,
        group: !choosing,
    };
    push(room, depth, frame);
    if choosing {
        return entered(s, free, s.flag);
    }
    put16(room, free, 0);
    entered(s, free + 1, free)
}

// Behind the BEGIN.
fn entered(s: Nest, free: usize, flag: usize) -> Nest
    requires { s.depth < deepest }
    ensures { result ≡ enter s free flag }
{
    Nest {
        depth: s.depth + 1,
        free,
        flag,
        choosing: false,
        destination: None,
        ..s
    }
}
