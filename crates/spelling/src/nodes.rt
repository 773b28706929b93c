// Where no node stands yet: at the heads, and at the children of a token.
ghost use Rattle.std.specs.Prelude.{◌+◌, ◌*◌, ◌≤◌, length};
ghost use Rattle.room.specs.Spelling.{heads, room_size};
ghost use Rattle.spelling.specs.Spelling.{Cleared, Opened};

use cells::put16;
use room::spelling::HEADS;

// In place of a node's number: there is none.
pub const NONE: u16 = 65535;

// Leaves no node at any head.
#[tactic(auto, using(crate::specs::Laws::Cells::none_cleared, crate::specs::Laws::Cells::cleared_more))]
pub fn clear_heads(room: &mut [u8])
    requires { room_size ≤ length room.old }
    ensures { Cleared room.new 0 heads }
{
    for h in 0..HEADS {
        put16(room, h, NONE);
    }
}

// Leaves no child at the token i.
pub fn clear_children(room: &mut [u8], i: usize)
    requires { 2 * (heads + 2 * (i + 1)) ≤ length room.old }
    ensures { Opened room.old room.new i }
{
    let left = HEADS + 2 * i;
    put16(room, left, NONE);
    put16(room, left + 1, NONE);
}
