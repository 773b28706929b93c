// Bytes as they are.
ghost use Rattle.std.specs.Prelude.{◌+◌, ◌<◌, ◌≤◌, [], ◌∷◌, length};
ghost use Rattle.lines.specs.Appended.{Appended};

pub fn put_byte(out: &mut [u8], at: usize, b: u8) -> usize
    requires { at < length out.old }
    ensures { Appended out.old out.new at result (b ∷ []) }
{
    out[at] = b;
    at + 1
}

pub fn put_bytes(out: &mut [u8], at: usize, more: &[u8]) -> usize
    requires { at + length more.now ≤ length out.old }
    ensures { Appended out.old out.new at result more.now }
{
    let end = at + more.len();
    out[at..end].copy_from_slice(more);
    end
}
