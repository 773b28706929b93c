// The operators one by one. A contract holds at whatever lengths the operands have.
ghost use Rattle.std.specs.Prelude.{◌≡◌, ℕ, ◌+◌, ◌*◌, ◌^◌, ◌<◌, ◌≤◌};
ghost use Rattle.rules.specs.Text.Tokens.{join, plus, minus, and, eqv, or, xor};
ghost use Rattle.rules.specs.Values as rules;
ghost use Rattle.rules.specs.Values.{op_bits, op_number, not_number};
ghost use Rattle.values.specs.Operands.{Fit};

use super::fields::low_bits;

// The sum, one bit longer than the longer operand.
pub fn add(a: u64, b: u64) -> u64
    requires { a + b < 2 ^ 64 }
    ensures { (m n : ℕ) → result ≡ op_number plus m a n b }
{
    a + b
}

// The difference, n bits long.
pub fn subtract(n: u32, a: u64, b: u64) -> u64
    requires { n ≤ 64 }
    ensures { (m k : ℕ) → Fit m a k b → n ≡ op_bits minus m k → result ≡ op_number minus m a k b }
{
    low_bits(a.wrapping_sub(b), n)
}

// The bits of a, then the n bits of b.
pub fn join(n: u32, a: u64, b: u64) -> u64
    requires { (n < 64) × (a * 2 ^ n + b < 2 ^ 64) }
    ensures { (m : ℕ) → result ≡ op_number join m a n b }
{
    (a << n) + b
}

// NOT of a, which has n bits.
pub fn invert(n: u32, a: u64) -> u64
    requires { (n ≤ 64) × (a < 2 ^ n) }
    ensures { result ≡ not_number n a }
{
    low_bits(!a, n)
}

// AND.
pub fn both(a: u64, b: u64) -> u64
    ensures { (m n : ℕ) → Fit m a n b → result ≡ op_number and m a n b }
{
    a & b
}

// OR.
pub fn either(a: u64, b: u64) -> u64
    ensures { (m n : ℕ) → Fit m a n b → result ≡ op_number or m a n b }
{
    a | b
}

// XOR.
pub fn differ(a: u64, b: u64) -> u64
    ensures { (m n : ℕ) → Fit m a n b → result ≡ op_number xor m a n b }
{
    a ^ b
}

// EQV, n bits long.
pub fn alike(n: u32, a: u64, b: u64) -> u64
    requires { (n ≤ 64) × (a < 2 ^ n) × (b < 2 ^ n) }
    ensures { (m k : ℕ) → Fit m a k b → n ≡ op_bits eqv m k → result ≡ op_number eqv m a k b }
{
    invert(n, a ^ b)
}

// One bit: 1 if it holds.
pub fn truth(holds: bool) -> u64
    ensures { result ≡ rules.truth holds }
{
    holds as u64
}
