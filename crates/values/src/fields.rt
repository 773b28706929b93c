// The bits of a word: the lowest ones, a run of them, and the pieces of a joined destination.
ghost use Rattle.std.specs.Prelude.{◌≡◌, ◌+◌, ◌-◌, ◌%◌, ◌^◌, ◌<◌, ◌≤◌};
ghost use Rattle.rules.specs.Values as rules;

// The n lowest bits of v. A shift by 64 is not allowed, so that length is apart.
pub fn low_bits(v: u64, n: u32) -> u64
    requires { n ≤ 64 }
    ensures { result ≡ v % 2 ^ n }
{
    if n == 64 {
        return v;
    }
    v % (1 << n)
}

// The bits of w from `low` up, `size` of them.
pub fn field(low: u32, size: u32, w: u64) -> u64
    requires { (low < 64) × (low + size ≤ 64) }
    ensures { result ≡ rules.field low size w }
{
    low_bits(w >> low, size)
}

// The word w with these bits replaced by the lowest of v.
pub fn with_field(low: u32, size: u32, w: u64, v: u64) -> u64
    requires { (low < 64) × (low + size ≤ 64) }
    ensures { result ≡ rules.with_field low size w v }
{
    let old = field(low, size, w);
    let new = low_bits(v, size);
    w - (old << low) + (new << low)
}

// The next piece of a value that is cut up left to right: `rest` bits are left, the piece takes the `size` highest of them.
pub fn part(rest: u32, size: u32, v: u64) -> u64
    requires { (0 < size) × (size ≤ rest) × (rest ≤ 64) }
    ensures { result ≡ rules.field (rest - size) size v }
{
    field(rest - size, size, v)
}
