// The numbers of a reason in lent bytes.
ghost use Rattle.std.specs.Prelude.{◌≡◌, ◌++◌, ◌<◌, ◌≤◌, length, get_or, drop};
ghost use Rattle.rules.specs.Calls.Memory.{number_bytes};
ghost use Rattle.rules.specs.Calls.Why.{reason_size};

use cells::put64;
use chaining::walks::Numbers;
use lent::answers::pair;

// Two numbers of 32 bits are written at a time.
const PAIRS: usize = 12;

// The number i.
fn number_at(numbers: Numbers, i: usize) -> u32
    requires { i < 24 }
    ensures { result ≡ get_or numbers.n i 0 }
{
    numbers.n[i]
}

// Writes the numbers in front of what stands in the bytes.
pub fn put_numbers(reason: &mut [u8], numbers: Numbers)
    requires { reason_size ≤ length reason.old }
    ensures { reason.new ≡ number_bytes numbers.n ++ drop reason_size reason.old }
{
    for i in 0..PAIRS {
        let low = number_at(numbers, 2 * i);
        let high = number_at(numbers, 2 * i + 1);
        put64(reason, i, pair(low, high));
    }
}
