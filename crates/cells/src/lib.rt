// A lent byte buffer as a table of little-endian cells, of 16 bits and of 64.
#![tactic(auto)]

ghost use Rattle.std.specs.Prelude.{◌≡◌, ◌+◌, ◌*◌, ◌<◌, ◌≤◌, length};
ghost use Rattle.cells.specs.Cells.{cell, put_cell};

// The cell i.
pub fn get16(b: &[u8], i: usize) -> u16
    requires { 2 * i + 2 ≤ length b.now }
    ensures { result ≡ cell 2 b.now i }
{
    let o = 2 * i;
    u16::from_le_bytes([b[o], b[o + 1]])
}

// The cell i.
pub fn get64(b: &[u8], i: usize) -> u64
    requires { 8 * i + 8 ≤ length b.now }
    ensures { result ≡ cell 8 b.now i }
{
    let o = 8 * i;
    u64::from_le_bytes([
        b[o],
        b[o + 1],
        b[o + 2],
        b[o + 3],
        b[o + 4],
        b[o + 5],
        b[o + 6],
        b[o + 7],
    ])
}

// The cell i takes v.
pub fn put16(b: &mut [u8], i: usize, v: u16)
    requires { 2 * i + 2 ≤ length b.old }
    ensures { b.new ≡ put_cell 2 b.old i v }
{
    let o = 2 * i;
    b[o..o + 2].copy_from_slice(&v.to_le_bytes());
}

// The cell i takes v.
pub fn put64(b: &mut [u8], i: usize, v: u64)
    requires { 8 * i + 8 ≤ length b.old }
    ensures { b.new ≡ put_cell 8 b.old i v }
{
    let o = 8 * i;
    b[o..o + 8].copy_from_slice(&v.to_le_bytes());
}
