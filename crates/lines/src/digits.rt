// Numbers: in decimal, as many digits as they take; in hexadecimal, 16 digits.
ghost use Rattle.std.specs.Prelude.{◌≡◌, ◌+◌, ◌<◌, ◌≤◌, length};
ghost use Rattle.lines.specs.Appended.{Appended};
ghost use Rattle.lines.specs.Digits.{decimal_in, decimal_bytes, hex_digit, hex_in, hex_capitals};

use crate::bytes::put_byte;

// At most k decimal digits. A recursion: the last digit is found first and written last.
fn decimal_in(out: &mut [u8], at: usize, k: usize, n: u64) -> usize
    requires { at + k ≤ length out.old }
    ensures { Appended out.old out.new at result (decimal_in k n) }
{
    if k == 0 {
        return at;
    }
    if n < 10 {
        return put_byte(out, at, b'0' + n as u8);
    }
    let next = decimal_in(out, at, k - 1, n / 10);
    put_byte(out, next, b'0' + (n % 10) as u8)
}

pub fn put_decimal(out: &mut [u8], at: usize, n: u64) -> usize
    requires { at + 20 ≤ length out.old }
    ensures { Appended out.old out.new at result (decimal_bytes n) × (result ≤ at + 20) }
{
    decimal_in(out, at, 20, n)
}

// A digit below 16, in capitals.
fn hex_digit(d: u64) -> u8
    requires { d < 16 }
    ensures { result ≡ hex_digit d }
{
    if d < 10 {
        b'0' + d as u8
    } else {
        b'A' + (d % 10) as u8
    }
}

// The last k hexadecimal digits.
fn hex_in(out: &mut [u8], at: usize, k: usize, n: u64) -> usize
    requires { at + k ≤ length out.old }
    ensures { Appended out.old out.new at result (hex_in k n) }
{
    if k == 0 {
        return at;
    }
    let next = hex_in(out, at, k - 1, n / 16);
    put_byte(out, next, hex_digit(n % 16))
}

pub fn put_hex_capitals(out: &mut [u8], at: usize, n: u64) -> usize
    requires { at + 16 ≤ length out.old }
    ensures { Appended out.old out.new at result (hex_capitals n) × (result ≡ at + 16) }
{
    hex_in(out, at, 16, n)
}
