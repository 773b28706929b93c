// Bytes as they are.
ghost use Rattle.std.specs.Prelude.{◌≡◌, ◌+◌, ◌≤◌, length};
ghost use Rattle.std.proofs.Math.Seq.{paste};
ghost use Rattle.rules.specs.Images.{all_zero};

// Puts bytes into a buffer from `at` on. One by one: the library's copy of a length that is not known calls `memmove`, which a C program would have to bring.
pub fn copy(to: &mut [u8], at: usize, from: &[u8])
    requires { at + length from.now ≤ length to.old }
    ensures { to.new ≡ paste to.old at from.now (length from.now) }
{
    for (i, byte) in from.iter().enumerate() {
        to[at + i] = *byte;
    }
}

// Whether every byte is 0.
pub fn is_zero(bytes: &[u8]) -> bool
    ensures { result ≡ all_zero bytes.now }
{
    for byte in bytes {
        if *byte != 0 {
            return false;
        }
    }
    true
}
