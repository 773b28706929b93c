// Where the bits of an access lie, by the cell of its name: the first word, the lowest bit, the number of bits, the names of the left and the right word.
ghost use Rattle.std.specs.Prelude.{◌≡◌, ◌+◌, ◌*◌, ◌≤◌, ◌<◌, length};
ghost use Rattle.rules.specs.Declarations.{names, from_left};
ghost use Rattle.records.specs.Holds.{value_cell_of};
ghost use Rattle.operands.specs.Cells.{cell_first, cell_low, cell_bits, cell_left, cell_right, shown_word, located_at};
ghost use Rattle.operands.specs.Answers.{Readable, read_at};
ghost use Rattle.operands.specs.Subscripts.{SubscriptedAt, SubscriptedAnswer};

use crate::expressions::Value;
use cells::{get16, get64};
use records::fields::place16_at;
use table::views::bits_size;
use values::fields::field;

// The bits that an access stands for: a word, its lowest bit, their number, and the token behind the access.
#[derive(Clone, Copy)]
pub struct Field {
    pub word: usize,
    pub low: u32,
    pub size: u32,
    pub next: usize,
}

// A word is none of its names: the place of the Fault 70.
#[derive(Clone, Copy)]
pub struct Outside {
    pub place: u16,
}

// How far the name n stands from the left one of the words, if it is one of them.
fn from_left(left: u64, right: u64, n: u64) -> Option<u64>
    ensures { result ≡ shown_word (from_left (names left right) n) }
{
    if n < left.min(right) || left.max(right) < n {
        return None;
    }
    Some(n.abs_diff(left))
}

// The first word that the name i reaches.
fn first_word(values: &[u8], i: usize) -> usize
    requires { 8 * i + 8 ≤ length values.now }
    ensures { result ≡ cell_first (value_cell_of values.now i) }
{
    get16(values, 4 * i) as usize
}

// The lowest bit of the access with the name i.
fn lowest_bit(values: &[u8], i: usize) -> u32
    requires { 8 * i + 8 ≤ length values.now }
    ensures { result ≡ cell_low (value_cell_of values.now i) }
{
    values[8 * i + 2] as u32
}

// How many bits it has.
fn bit_count(values: &[u8], i: usize) -> u32
    requires { 8 * i + 8 ≤ length values.now }
    ensures { result ≡ cell_bits (value_cell_of values.now i) }
{
    values[8 * i + 3] as u32
}

// The names of the left and of the right word.
fn left_word(values: &[u8], i: usize) -> u64
    requires { 8 * i + 8 ≤ length values.now }
    ensures { result ≡ cell_left (value_cell_of values.now i) }
{
    get16(values, 4 * i + 2) as u64
}

fn right_word(values: &[u8], i: usize) -> u64
    requires { 8 * i + 8 ≤ length values.now }
    ensures { result ≡ cell_right (value_cell_of values.now i) }
{
    get16(values, 4 * i + 3) as u64
}

// The bits of the access with the name i in the word that stands k words behind the first.
pub fn in_word(values: &[u8], i: usize, k: u64, next: usize) -> Field
    requires { (8 * i + 8 ≤ length values.now) × (k < 65536) }
    ensures { result ≡ located_at (value_cell_of values.now i) k next }
{
    Field {
        word: first_word(values, i) + k as usize,
        low: lowest_bit(values, i),
        size: bit_count(values, i),
        next,
    }
}

// The access of the name i whose subscript has the value n and whose bits stand from p on.
pub fn subscripted(
    records: &[u8],
    values: &[u8],
    i: usize,
    n: u64,
    p: usize,
) -> Result<Field, Outside>
    requires { SubscriptedAt records.now values.now i n p }
    ensures { (v : SubscriptedAt records.now values.now i n p) → SubscriptedAnswer v result }
{
    match from_left(left_word(values, i), right_word(values, i), n) {
        None => Err(Outside {
            place: place16_at(records, i),
        }),
        Some(k) => Ok(in_word(values, i, k, p + bits_size(records, p))),
    }
}

// What the carriers hold there.
pub fn read(carriers: &[u8], at: Field) -> Value
    requires { Readable carriers.now at }
    ensures { result ≡ read_at carriers.now at }
{
    Value {
        number: field(at.low, at.size, get64(carriers, at.word)),
        bits: at.size,
        next: at.next,
    }
}
