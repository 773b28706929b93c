// A budget of steps, as it is given to the program.
use decimals::decimal_in;

// Decimal digits, at least one, of a number that fits 32 bits.
pub fn budget_in(word: &[u8]) -> Option<u32> {
    u32::try_from(decimal_in(word)?).ok()
}
