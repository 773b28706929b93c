// Two cells of two bytes side by side: those of a token, and a frame.
ghost use Rattle.std.specs.Prelude.{◌+◌, ◌*◌, ◌<◌, ◌≤◌, length};
ghost use Rattle.marking.specs.Holding.{Paired};

use cells::put16;

// The pair k.
pub fn put_pair(b: &mut [u8], k: usize, x: usize, y: usize)
    requires { (4 * k + 4 ≤ length b.old) × (x < 65536) × (y < 65536) }
    ensures { Paired b.old b.new k x y }
{
    put16(b, 2 * k, x as u16);
    put16(b, 2 * k + 1, y as u16);
}
