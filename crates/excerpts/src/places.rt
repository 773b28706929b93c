// Places in the text.
ghost use Rattle.std.specs.Prelude.{◌+◌, ◌≤◌, length};

use lines::bytes::put_bytes;
use lines::digits::put_decimal;
use lines::endings::put_labelled;
use positions::walked;

// A place as an offset, at most that of the end.
pub fn offset_in(text: &[u8], place: u64) -> usize
    ensures { result ≤ length text.now }
{
    place.min(text.len() as u64) as usize
}

// Line and column of an offset, in front of what is said of it.
pub fn put_place(out: &mut [u8], at: usize, text: &[u8], offset: usize) -> usize
    requires { (at + 64 ≤ length out.old) × (offset ≤ 32769) }
    ensures { result ≤ at + 64 }
{
    let here = walked(text, offset.min(text.len()));
    let second = put_decimal(out, at, u64::from(here.line));
    let third = put_labelled(out, second, b":", u64::from(here.column));
    put_bytes(out, third, b": ")
}
