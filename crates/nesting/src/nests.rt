// Where a walk along the tokens of a body stands.
ghost use Rattle.std.specs.Prelude.{◌≡◌, true, false, cond, ◌&&◌, ◌||◌, List, ℕ, ◌+◌, ◌*◌, ◌<◌, ◌≤◌, min, eqb, length};
ghost use Rattle.cells.specs.Cells.{cell};
ghost use Rattle.nesting.specs.Holding.{low_behind, Standing, Does, Set, Taken};
ghost use Rattle.nesting.specs.Machine.{reached, transferred, destined, looped, chosen};

use cells::{get16, put16};

// The destination that is being read: the place of its first name, and whether it writes the output. The place has two bytes, so that both fit one
// word: with a gap of seven bytes they were copied in pieces.
#[derive(Clone, Copy)]
pub struct Destination {
    pub place: u16,
    pub hit: bool,
}

// How many BEGINs are open, the first free flag, how many labels are around; the flag at the end of the action here, whether control comes to it; whether it is a
// DECODE; its destination, once it has begun; and the lowest place so far.
#[derive(Clone, Copy)]
pub struct Nest {
    pub depth: usize,
    pub free: usize,
    pub label: usize,
    pub flag: usize,
    pub comes: bool,
    pub choosing: bool,
    pub destination: Option<Destination>,
    pub low: usize,
}

pub fn both(a: bool, b: bool) -> bool
    ensures { result ≡ (a && b) }
{
    a && b
}

pub fn either(a: bool, b: bool) -> bool
    ensures { result ≡ (a || b) }
{
    a || b
}

// The lower of the two, if b.
pub fn lowered(low: usize, place: usize, b: bool) -> usize
    ensures { result ≡ cond b (min low place) low }
{
    if b {
        return low.min(place);
    }
    low
}

// Sets the flag k if b.
pub fn mark(room: &mut [u8], k: usize, b: bool)
    requires { 2 * k + 2 ≤ length room.old }
    ensures { Set room.old room.new k b }
{
    if b {
        put16(room, k, 1);
    }
}

pub fn flag_at(room: &[u8], k: usize) -> bool
    requires { 2 * k + 2 ≤ length room.now }
    ensures { result ≡ eqb (cell 2 room.now k) 1 }
{
    get16(room, k) == 1
}

// The flag k, which is cleared.
pub fn take(room: &mut [u8], k: usize) -> bool
    requires { 2 * k + 2 ≤ length room.old }
    ensures { Taken room.old room.new k result }
{
    let is = flag_at(room, k);
    put16(room, k, 0);
    is
}

// Control comes to the end of the action here.
pub fn reach(room: &mut [u8], s: Nest) -> Nest
    requires { Standing room.old s }
    ensures { Does (λ z. reached z z.marks) room.old s room.new result }
{
    mark(room, s.flag, s.comes);
    s
}

// The lowest place once the destination is written.
fn low_behind(s: Nest) -> usize
    ensures { result ≡ low_behind s }
{
    match s.destination {
        None => s.low,
        Some(destination) => lowered(
            s.low,
            destination.place as usize,
            both(s.comes, destination.hit),
        ),
    }
}

// At the `=` of a transfer.
pub fn transfer(room: &mut [u8], s: Nest) -> Nest
    requires { Standing room.old s }
    ensures { Does transferred room.old s room.new result }
{
    let low = low_behind(s);
    mark(room, s.flag, s.comes);
    Nest {
        destination: None,
        low,
        ..s
    }
}

// One more part of a destination, at this place; h tells whether it is the output.
pub fn destine(s: Nest, place: usize, h: bool) -> Nest
    requires { place < 65535 }
    ensures { (room : List ℕ) → Does (destined place h) room s room result }
{
    match s.destination {
        None => Nest {
            destination: Some(Destination {
                place: place as u16,
                hit: h,
            }),
            ..s
        },
        Some(begun) => Nest {
            destination: Some(Destination {
                hit: either(begun.hit, h),
                ..begun
            }),
            ..s
        },
    }
}

// In a REPEAT nobody asks whether a turn ends.
pub fn turning(s: Nest) -> Nest
    ensures { (room : List ℕ) → Does looped room s room result }
{
    Nest { flag: 0, ..s }
}

// Whether a DECODE is here.
pub fn choosing(s: Nest, c: bool) -> Nest
    ensures { (room : List ℕ) → Does (chosen c) room s room result }
{
    Nest { choosing: c, ..s }
}
