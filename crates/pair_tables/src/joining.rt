// The joint table: the first text's words, then those of the second that it does not share. One pass over the second text's declarations.
ghost use Rattle.std.specs.Prelude.{◌≡◌, ◌+◌, ◌*◌, ◌<◌, ◌≤◌, length};
ghost use Rattle.rules.specs.Declarations.{total_words};
ghost use Rattle.rules.specs.Limits.{longest_text, most_words};
ghost use Rattle.places.specs.Bases.{FirstsHold};
ghost use Rattle.pair_tables.specs.Standing.{Stands, declared_by};
ghost use Rattle.pair_tables.specs.Joining.{Reaches, first_by, key_by, free_by, Joins};

use crate::meeting::{Met, meet};
use cells::{get16, put16};
use declare::counting::words;
use declare::faults::words_in;
use keys::{NO_KEY, earlier, fault_key};
use places::counting::first_words;
use records::fields::place_at;

// The key of the least 80, and the words of the joint table.
#[derive(Clone, Copy)]
pub struct Joined {
    pub key: u32,
    pub words: usize,
}

// The first word of a declaration in the table, by what it meets, when `free` words are taken.
fn first_of(starts: &[u8], met: Met, free: usize) -> u16
    requires { Reaches starts.now met × (free < 65536) }
    ensures { result ≡ first_by starts.now met free }
{
    match met {
        Met::Shared(i) => get16(starts, i),
        Met::Own => free as u16,
        Met::Clashing => free as u16,
    }
}

// The least key so far, with the clash of the declaration whose name stands at `place`.
fn key_with(met: Met, key: u32, place: usize) -> u32
    requires { place ≤ longest_text }
    ensures { result ≡ key_by place met key }
{
    match met {
        Met::Clashing => earlier(key, fault_key(80, place)),
        Met::Own => key,
        Met::Shared(_) => key,
    }
}

// How many words of the table are taken behind a declaration that has so many.
fn taken(met: Met, free: usize, words: usize) -> usize
    requires { (free < 65536) × (words ≤ most_words) }
    ensures { result ≡ free_by met free words }
{
    match met {
        Met::Own => free + words,
        Met::Clashing => free + words,
        Met::Shared(_) => free,
    }
}

// Writes the first words of the second text's declarations, behind the words of the first, whose declarations begin at `starts`.
fn join_behind(
    text0: &[u8],
    records0: &[u8],
    values0: &[u8],
    decls0: &[u8],
    m0: usize,
    starts: &[u8],
    words0: usize,
    text1: &[u8],
    records1: &[u8],
    values1: &[u8],
    decls1: &[u8],
    m1: usize,
    firsts: &mut [u8],
) -> Joined
    requires stands { Stands text0.now records0.now values0.now decls0.now m0 × Stands text1.now records1.now values1.now decls1.now m1 }
    requires m1_in_bounds { ((v : Stands text0.now records0.now values0.now decls0.now m0)
        → FirstsHold starts.now (declared_by v) m0 × (words0 ≡ total_words (declared_by v))) × (2 * m1 ≤ length firsts.old) }
    ensures { ((v : Stands text0.now records0.now values0.now decls0.now m0)
        (w : Stands text1.now records1.now values1.now decls1.now m1)
        → Joins (declared_by v) (declared_by w) firsts.new result.key result.words) × (length firsts.new ≡ length firsts.old) }
{
    let mut key = NO_KEY;
    let mut free = words0;
    for k in 0..m1 {
        let q = get16(decls1, k) as usize;
        let met = meet(
            text0, records0, values0, decls0, m0, text1, records1, values1, q,
        );
        put16(firsts, k, first_of(starts, met, free));
        key = key_with(met, key, place_at(records1, q));
        free = taken(met, free, words_in(records1, values1, q));
    }
    Joined { key, words: free }
}

// Joins two accepted descriptions: the second one's first words in the table are written, two bytes each.
pub fn join(
    text0: &[u8],
    records0: &[u8],
    values0: &[u8],
    decls0: &[u8],
    m0: usize,
    text1: &[u8],
    records1: &[u8],
    values1: &[u8],
    decls1: &[u8],
    m1: usize,
    firsts: &mut [u8],
) -> Joined
    requires stands { Stands text0.now records0.now values0.now decls0.now m0 × Stands text1.now records1.now values1.now decls1.now m1 }
    requires m1_in_bounds { 2 * m1 ≤ length firsts.old }
    ensures { ((v : Stands text0.now records0.now values0.now decls0.now m0)
        (w : Stands text1.now records1.now values1.now decls1.now m1)
        → Joins (declared_by v) (declared_by w) firsts.new result.key result.words) × (length firsts.new ≡ length firsts.old) }
{
    let mut starts: [u8; 512] = [0; 512];
    first_words(records0, values0, decls0, m0, &mut starts);
    let words0 = words(records0, values0, decls0, m0);
    join_behind(
        text0, records0, values0, decls0, m0, &starts, words0, text1, records1, values1, decls1,
        m1, firsts,
    )
}
