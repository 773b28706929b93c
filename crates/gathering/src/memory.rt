// What is gathered of each body, and the storage carrier under its name, kept in 72 lent bytes for a declaration.
ghost use Rattle.std.specs.Prelude.{◌≡◌, false, ℕ, ◌+◌, ◌*◌, ◌/◌, ◌%◌, ◌≤◌, eqb, length};
ghost use Rattle.cells.specs.Cells.{cell};
ghost use Rattle.reading.specs.Bits.{holds};
ghost use Rattle.gathering.specs.Memory.{Put, PutWords, Stored, words_at, mark_of, carrier_of, reads_at, writes_at, mark_for};

use cells::{get64, put64};
use reading::bits::{Set, empty};

// The first word of an entry has the mark in its lowest two bytes and the carrier in the two above, so that each is read by itself.
pub const ABOVE_MARK: u64 = 65536;

// What an action reads and writes, and whether it may stop.
#[derive(Clone, Copy)]
pub struct Touched {
    pub reads: Set,
    pub writes: Set,
    pub stops: bool,
}

pub fn nothing() -> Touched
    ensures { ((k : ℕ) → holds result.reads.w k ≡ false) × (((k : ℕ) → holds result.writes.w k ≡ false) × (result.stops ≡ false)) }
{
    Touched {
        reads: empty(),
        writes: empty(),
        stops: false,
    }
}

pub fn put_word(memo: &mut [u8], i: usize, v: u64)
    requires { 8 * i + 8 ≤ length memo.old }
    ensures { Put memo.old memo.new i v }
{
    put64(memo, i, v);
}

fn put_set(memo: &mut [u8], c: usize, s: Set)
    requires { 8 * c + 32 ≤ length memo.old }
    ensures { PutWords memo.old memo.new c s.w }
{
    put_word(memo, c, s.w[0]);
    put_word(memo, c + 1, s.w[1]);
    put_word(memo, c + 2, s.w[2]);
    put_word(memo, c + 3, s.w[3]);
}

// The mark in the cell c.
pub fn mark_in(memo: &[u8], c: usize) -> u64
    requires { 8 * c + 8 ≤ length memo.now }
    ensures { result ≡ cell 8 memo.now c % 65536 }
{
    get64(memo, c) % ABOVE_MARK
}

// The word of a declaration, with the mark of a body that is gathered.
fn marked(word: u64, stops: bool) -> u64
    ensures { (result % 65536 ≡ mark_for stops) × (result / 65536 ≡ word / 65536) }
{
    if stops {
        return word / ABOVE_MARK * ABOVE_MARK + 2;
    }
    word / ABOVE_MARK * ABOVE_MARK + 1
}

// The storage carrier under the name of the declaration k; from 256 on there is none.
pub fn carrier_at(memo: &[u8], k: usize) -> usize
    requires { 72 * k + 72 ≤ length memo.now }
    ensures { result ≡ carrier_of memo.now k }
{
    (get64(memo, 9 * k) / ABOVE_MARK % ABOVE_MARK) as usize
}

pub fn remember(memo: &mut [u8], k: usize, t: Touched)
    requires { 72 * k + 72 ≤ length memo.old }
    ensures { Stored memo.old memo.new k t.reads.w t.writes.w (mark_for t.stops) }
{
    let reads = t.reads;
    let writes = t.writes;
    let stops = t.stops;
    put_set(memo, 9 * k + 1, reads);
    put_set(memo, 9 * k + 5, writes);
    let word = get64(memo, 9 * k);
    put_word(memo, 9 * k, marked(word, stops));
}

fn set_at(memo: &[u8], c: usize) -> Set
    requires { 8 * c + 32 ≤ length memo.now }
    ensures { result.w ≡ words_at memo.now c }
{
    Set {
        w: [
            get64(memo, c),
            get64(memo, c + 1),
            get64(memo, c + 2),
            get64(memo, c + 3),
        ],
    }
}

pub fn recalled(memo: &[u8], k: usize) -> Touched
    requires { 72 * k + 72 ≤ length memo.now }
    ensures { (result.reads.w ≡ reads_at memo.now k) × ((result.writes.w ≡ writes_at memo.now k) × (result.stops ≡ eqb (mark_of memo.now k) 2)) }
{
    Touched {
        reads: set_at(memo, 9 * k + 1),
        writes: set_at(memo, 9 * k + 5),
        stops: mark_in(memo, 9 * k) == 2,
    }
}
