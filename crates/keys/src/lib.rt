// Faults as numbers, of which the least is kept.
#![tactic(auto)]

ghost use Rattle.std.specs.Prelude.{◌≡◌, ◌/◌, ◌%◌, ◌<◌, ◌≤◌, min};
ghost use Rattle.rules.specs.Faults.Fault.{fault};
ghost use Rattle.rules.specs.Limits.{longest_text};
ghost use Rattle.keys.specs.Keys.{key, number_key};

use rules::refusals::Refusal;

// No fault: above every key.
pub const NO_KEY: u32 = 4294967295;

// The key of a fault where the place counts first.
pub fn fault_key(number: u32, place: usize) -> u32
    requires { (number < 128) × (place ≤ longest_text) }
    ensures { result ≡ key (fault number place) }
{
    place as u32 * 128 + number
}

// The key of a fault where the number counts first.
pub fn number_key(number: u32, place: usize) -> u32
    requires { (number < 128) × (place ≤ longest_text) }
    ensures { result ≡ number_key (fault number place) }
{
    number * 65536 + place as u32
}

// The refusal that a key stands for where the place counts first.
pub fn fault_of(key: u32) -> Refusal
    ensures { (result.number ≡ key % 128) × (result.place ≡ key / 128) }
{
    Refusal {
        number: key % 128,
        place: (key / 128) as usize,
    }
}

// The refusal that a key stands for where the number counts first.
pub fn number_fault_of(key: u32) -> Refusal
    ensures { (result.number ≡ key / 65536) × (result.place ≡ key % 65536) }
{
    Refusal {
        number: key / 65536,
        place: (key % 65536) as usize,
    }
}

pub fn earlier(a: u32, b: u32) -> u32
    ensures { result ≡ min a b }
{
    if a < b { a } else { b }
}
