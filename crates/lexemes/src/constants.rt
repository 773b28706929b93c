// Constants: decimal, and of 1, 3 or 4 bits a digit.
ghost use Rattle.std.specs.Prelude.{◌≡◌, true, ◌+◌, ◌-◌, ◌*◌, ◌^◌, ◌<◌, ◌≤◌, length, get_or, drop};
ghost use Rattle.std.proofs.Math.Seq.{slice};
ghost use Rattle.rules.specs.Text.Bytes.{digit, prefix, in_constant};
ghost use Rattle.rules.specs.Text.Constants.{digit_bits, decimal_bits, decimal, based};
ghost use Rattle.rules.specs.Text.Scan.{lexeme_by};
ghost use Rattle.classes.specs.Classes.{Classed};
ghost use Rattle.lexemes.specs.Digits.{digit_no};
ghost use Rattle.lexemes.specs.Numbers.{number_of, based_digits, free_kind, constant_of};
ghost use Rattle.lexemes.specs.Lexemes.{lexeme_of};

use crate::lexemes::{Lexeme, Misspelling, Token};
use classes::classes::{IN_CONSTANT, run_end};
use classes::letters::upper;
use rules::kinds::{CONST, MASKED};
use rules::limits::MOST_BITS;

// What the digits of a constant come to.
#[derive(Clone, Copy, PartialEq, Eq)]
pub struct Number {
    pub value: u64,
    pub free: u64,
    pub bits: u8,
}

// The value of a byte as a digit of any base up to 16; 16 for `?`, 17 for any other byte.
fn digit_of(b: u8) -> u64
    ensures { (result ≡ digit_no b) × (b < 256) }
{
    let n = upper(b) as u64;
    if n == 63 {
        return 16;
    }
    if n < 48 {
        return 17;
    }
    if n < 58 {
        return n - 48;
    }
    if n < 65 {
        return 17;
    }
    if n < 71 {
        return n - 55;
    }
    17
}

// The fewest bits that hold a value, and one for 0.
fn decimal_bits(value: u64) -> u8
    ensures { result ≡ decimal_bits value }
{
    // A while: it ends where nothing of the value is left.
    let mut bits: u8 = 1;
    let mut rest = value / 2;
    while rest != 0 {
        rest = rest / 2;
        bits += 1;
    }
    bits
}

// The decimal from `at` to `end`. The test before each digit keeps the value below 2 ^ 64.
fn decimal_value(text: &[u8], at: usize, end: usize) -> Option<Number>
    requires { (at ≤ end) × (end ≤ length text.now) }
    ensures { result ≡ number_of (decimal (slice at end text.now)) }
{
    let mut value: u64 = 0;
    for i in at..end {
        let digit = digit_of(text[i]);
        if 9 < digit {
            return None;
        }
        if (18446744073709551615 - digit) / 10 < value {
            return None;
        }
        value = value * 10 + digit;
    }
    Some(Number {
        value,
        free: 0,
        bits: decimal_bits(value),
    })
}

// The digits of a base from `from` to `end`, of which there are few enough that the value fits.
fn based_digits(text: &[u8], from: usize, end: usize, base: u64, bits: u8) -> Option<Number>
    requires { (from ≤ end) × ((end ≤ length text.now) × ((2 ≤ base) × ((base ≤ 16) × (base ^ (end - from) ≤ 2 ^ 64)))) }
    ensures { result ≡ number_of (based_digits base bits (slice from end text.now)) }
{
    let mut value: u64 = 0;
    let mut free: u64 = 0;
    for i in from..end {
        let digit = digit_of(text[i]);
        if digit == 16 {
            value = value * base;
            free = free * base + (base - 1);
        } else if digit < base {
            value = value * base + digit;
            free = free * base;
        } else {
            return None;
        }
    }
    Some(Number { value, free, bits })
}

// The length in bits of a number of digits behind a prefix.
fn based_bits(sign: u8, count: usize) -> usize
    requires { count ≤ 32768 }
    ensures { result ≡ digit_bits sign * count }
{
    if sign == 39 {
        return count;
    }
    if sign == 35 {
        return 3 * count;
    }
    4 * count
}

fn base_of(sign: u8) -> u64
    ensures { (result ≡ 2 ^ digit_bits sign) × ((2 ≤ result) × (result ≤ 16)) }
{
    if sign == 39 {
        return 2;
    }
    if sign == 35 {
        return 8;
    }
    16
}

// The constant whose digits stand from `from` to `end`, behind a prefix.
fn based_value(text: &[u8], from: usize, end: usize, sign: u8) -> Option<Number>
    requires { (from ≤ end) × ((end ≤ length text.now) × (length text.now ≤ 32768)) }
    ensures { result ≡ number_of (based (digit_bits sign) (slice from end text.now)) }
{
    let count = end - from;
    if count == 0 {
        return None;
    }
    let bits = based_bits(sign, count);
    if (MOST_BITS as usize) < bits {
        return None;
    }
    based_digits(text, from, end, base_of(sign), bits as u8)
}

// The kind of a constant by its free bits: one that has some has a `?`.
fn constant_kind(free: u64) -> u8
    ensures { result ≡ free_kind free }
{
    if free == 0 { CONST } else { MASKED }
}

// A constant of a number, with some bytes behind its first.
fn constant_lexeme(number: Option<Number>, more: usize) -> Result<Lexeme, Misspelling>
    ensures { result ≡ constant_of more number }
{
    match number {
        None => Err(Misspelling::BadConstant),
        Some(number) => Ok(Lexeme::Token(Token {
            more,
            kind: constant_kind(number.free),
            size: number.bits,
            value: number.value,
            free: number.free,
        })),
    }
}

// The constant at a place where a digit stands.
pub fn decimal_at(text: &[u8], classes: &[u8; 256], at: usize) -> Result<Lexeme, Misspelling>
    requires { (Classed classes.now) × ((at < length text.now) × (in_constant (get_or text.now at 0) ≡ true)) }
    ensures { result ≡ lexeme_of (lexeme_by digit at (get_or text.now at 0) (drop (at + 1) text.now)) }
{
    let end = run_end(text, classes, at + 1, IN_CONSTANT);
    constant_lexeme(decimal_value(text, at, end), end - (at + 1))
}

// The constant at a place where a prefix stands.
pub fn based_at(text: &[u8], classes: &[u8; 256], at: usize) -> Result<Lexeme, Misspelling>
    requires { (Classed classes.now) × ((at < length text.now) × (length text.now ≤ 32768)) }
    ensures { result ≡ lexeme_of (lexeme_by prefix at (get_or text.now at 0) (drop (at + 1) text.now)) }
{
    let sign = text[at];
    let end = run_end(text, classes, at + 1, IN_CONSTANT);
    constant_lexeme(based_value(text, at + 1, end, sign), end - (at + 1))
}
