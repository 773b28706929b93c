// Names as they stand in the text.
ghost use Rattle.std.specs.Prelude.{◌+◌, ◌≤◌, length};

use lines::bytes::put_bytes;
use rules::limits::LONGEST_NAME;

// Whether a name goes on with a byte.
fn is_in_name(byte: u8) -> bool {
    byte.is_ascii_alphanumeric() || byte == b'.'
}

// The name that starts at an offset.
pub fn put_name(out: &mut [u8], at: usize, text: &[u8], offset: usize) -> usize
    requires { (at + 32 ≤ length out.old) × (offset ≤ length text.now) }
    ensures { result ≤ at + 32 }
{
    let rest = &text[offset..];
    let most = rest.len().min(LONGEST_NAME);
    let name = rest[..most].iter().position(|byte| !is_in_name(*byte));
    put_bytes(out, at, &rest[..name.unwrap_or(most)])
}
