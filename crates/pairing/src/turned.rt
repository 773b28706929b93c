// The turns of two accepted texts whose carriers and turns are not refused.
ghost use Rattle.std.specs.Prelude.{ℕ, ◌≤◌, length};
ghost use Rattle.accepted.specs.Accepted.{Accepts, table_by};
ghost use Rattle.pair_tables.specs.Judging.{Begins};
ghost use Rattle.pairing.specs.Outcome.{Outcome};
ghost use Rattle.pairing.specs.Begun.{Numbered, BothBegun};

use crate::answers::last_answer;
use lent::answers::Answer;
use pair_turns::taking::take;
use pair_turns::views::fill_view;
use preparing::runs::prepare;

// Where MAIN begins in each text, and the words of the second.
#[derive(Clone, Copy)]
struct Begun {
    first: usize,
    second: usize,
    words: usize,
}

// Completes both tables. The first one's room then has the view: the numbers in the table of the second text's words.
fn begin(
    text0: &[u8],
    records0: &mut [u8],
    values0: &mut [u8],
    room0: &mut [u8],
    decls0: &[u8],
    m0: usize,
    n0: usize,
    text1: &[u8],
    records1: &mut [u8],
    values1: &mut [u8],
    room1: &mut [u8],
    decls1: &[u8],
    m1: usize,
    n1: usize,
    firsts: &[u8],
) -> Begun
    requires by_index { (words0 : ℕ) × (words1 : ℕ) × Accepts text0.now records0.old values0.old decls0.now m0 words0 n0
        × Accepts text1.now records1.old values1.old decls1.now m1 words1 n1 }
    requires in_bounds { (65536 ≤ length room0.old) × ((65536 ≤ length room1.old) × ((512 ≤ length decls0.now)
        × ((512 ≤ length decls1.now) × Numbered firsts.now m1))) }
    ensures { (words0 : ℕ) (words1 : ℕ) (v : Accepts text0.now records0.old values0.old
        decls0.now m0 words0 n0)
        (u : Accepts text1.now records1.old values1.old decls1.now m1 words1 n1)
        → BothBegun v u firsts.now records0.new values0.new room0.new records1.new
        values1.new result }
{
    let first = prepare(text0, records0, values0, room0, decls0, m0, n0);
    let words = fill_view(records1, values1, decls1, m1, firsts, room0);
    let second = prepare(text1, records1, values1, room1, decls1, m1, n1);
    Begun {
        first,
        second,
        words,
    }
}

// Takes the turns of two accepted texts, the first of `words` words, from carriers that are not refused.
pub fn turned(
    text0: &[u8],
    records0: &mut [u8],
    values0: &mut [u8],
    room0: &mut [u8],
    decls0: &[u8],
    m0: usize,
    words0: usize,
    n0: usize,
    text1: &[u8],
    records1: &mut [u8],
    values1: &mut [u8],
    room1: &mut [u8],
    decls1: &[u8],
    m1: usize,
    n1: usize,
    firsts: &mut [u8],
    carriers: &mut [u8],
    turns: &[u8],
    budget: u32,
) -> Answer
    requires by_index { (words1 : ℕ) × (v : Accepts text0.now records0.old values0.old decls0.now m0 words0 n0)
        × (u : Accepts text1.now records1.old values1.old decls1.now m1 words1 n1)
        × Begins (table_by v) (table_by u) firsts.old carriers.old turns.now }
    requires in_bounds { (65536 ≤ length room0.old) × ((65536 ≤ length room1.old) × ((512 ≤ length decls0.now)
        × ((512 ≤ length decls1.now) × (512 ≤ length firsts.old)))) }
    ensures { Outcome text0.now text1.now carriers.old turns.now budget carriers.new result }
{
    let begun = begin(
        text0, records0, values0, room0, decls0, m0, n0, text1, records1, values1, room1, decls1,
        m1, n1, firsts,
    );
    let last = take(
        records0,
        values0,
        decls0,
        begun.first,
        words0,
        records1,
        values1,
        decls1,
        begun.second,
        begun.words,
        room0,
        carriers,
        room1,
        firsts,
        turns,
        budget,
    );
    last_answer(text0, text1, last)
}
