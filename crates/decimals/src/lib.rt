// Decimals of up to 64 bits in a file.
#![tactic(auto)]

ghost use Rattle.std.specs.Prelude.{◌≤◌, length};

// Where the digits end that begin here.
pub fn behind_digits(file: &[u8], from: usize) -> usize
    requires { from ≤ length file.now }
    ensures { (from ≤ result) × (result ≤ length file.now) }
{
    let rest = &file[from..];
    let digits = rest.iter().position(|byte| !byte.is_ascii_digit());
    from + digits.unwrap_or(rest.len())
}

// Digits, at least one, of a number that fits 64 bits.
pub fn decimal_in(digits: &[u8]) -> Option<u64> {
    if digits.is_empty() {
        return None;
    }
    let mut value: u64 = 0;
    for digit in digits {
        if !digit.is_ascii_digit() {
            return None;
        }
        let more = u64::from(*digit - b'0');
        value = value.checked_mul(10)?.checked_add(more)?;
    }
    Some(value)
}
