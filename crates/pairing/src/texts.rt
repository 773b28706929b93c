// Two texts with their working memory: each one's own refusal, then what is refused of both, then their turns.
ghost use Rattle.std.specs.Prelude.{ℕ, ◌≤◌, length};
ghost use Rattle.rules.specs.Limits.{longest_text};
ghost use Rattle.accepted.specs.Accepted.{Accepts};
ghost use Rattle.pairing.specs.Outcome.{Outcome};

use crate::answers::refused_answer;
use crate::turned::turned;
use lent::answers::Answer;
use pair_tables::judging::judge;

// What is answered to two accepted texts, the first of `words0` words.
fn pair_accepted(
    text0: &[u8],
    records0: &mut [u8],
    values0: &mut [u8],
    room0: &mut [u8],
    decls0: &[u8],
    m0: usize,
    words0: usize,
    n0: usize,
    text1: &[u8],
    records1: &mut [u8],
    values1: &mut [u8],
    room1: &mut [u8],
    decls1: &[u8],
    m1: usize,
    n1: usize,
    carriers: &mut [u8],
    turns: &[u8],
    budget: u32,
) -> Answer
    requires by_index { (words1 : ℕ) × Accepts text0.now records0.old values0.old decls0.now m0 words0 n0
        × Accepts text1.now records1.old values1.old decls1.now m1 words1 n1 }
    requires in_bounds { (65536 ≤ length room0.old) × ((65536 ≤ length room1.old) × ((512 ≤ length decls0.now) × (512 ≤ length decls1.now))) }
    ensures { Outcome text0.now text1.now carriers.old turns.now budget carriers.new result }
{
    let mut firsts: [u8; 512] = [0; 512];
    match judge(
        text0,
        records0,
        values0,
        decls0,
        m0,
        text1,
        records1,
        values1,
        decls1,
        m1,
        &mut firsts,
        carriers,
        turns,
    ) {
        Err(refused) => refused_answer(
            text0,
            text1,
            refused.side,
            refused.refusal.number,
            refused.refusal.place,
        ),
        Ok(()) => turned(
            text0,
            records0,
            values0,
            room0,
            decls0,
            m0,
            words0,
            n0,
            text1,
            records1,
            values1,
            room1,
            decls1,
            m1,
            n1,
            &mut firsts,
            carriers,
            turns,
            budget,
        ),
    }
}

// What is answered to two texts of which the first is accepted.
fn pair_second(
    text0: &[u8],
    records0: &mut [u8],
    values0: &mut [u8],
    room0: &mut [u8],
    decls0: &[u8],
    m0: usize,
    words0: usize,
    n0: usize,
    text1: &[u8],
    records1: &mut [u8],
    values1: &mut [u8],
    room1: &mut [u8],
    carriers: &mut [u8],
    turns: &[u8],
    budget: u32,
) -> Answer
    requires accepts { Accepts text0.now records0.old values0.old decls0.now m0 words0 n0 × (length text1.now ≤ longest_text) }
    requires in_bounds { (65536 ≤ length room0.old) × ((512 ≤ length decls0.now) × ((65536 ≤ length records1.old)
        × ((65536 ≤ length values1.old) × (65536 ≤ length room1.old)))) }
    ensures { Outcome text0.now text1.now carriers.old turns.now budget carriers.new result }
{
    let mut decls1: [u8; 512] = [0; 512];
    match reader::check(text1, records1, values1, room1, &mut decls1) {
        Err(refused) => refused_answer(text0, text1, 1, refused.number, refused.place),
        Ok(second) => pair_accepted(
            text0,
            records0,
            values0,
            room0,
            decls0,
            m0,
            words0,
            n0,
            text1,
            records1,
            values1,
            room1,
            &decls1,
            second.declarations,
            second.tokens,
            carriers,
            turns,
            budget,
        ),
    }
}

// What is answered to two texts. The work memory may hold anything afterwards.
pub fn pair_texts(
    text0: &[u8],
    text1: &[u8],
    carriers: &mut [u8],
    turns: &[u8],
    budget: u32,
    a: &mut [u8],
    b: &mut [u8],
    c: &mut [u8],
    d: &mut [u8],
    e: &mut [u8],
    f: &mut [u8],
) -> Answer
    requires text0_len_bound { (length text0.now ≤ longest_text) × (length text1.now ≤ longest_text) }
    requires in_bounds { (65536 ≤ length a.old) × ((65536 ≤ length b.old) × ((65536 ≤ length c.old)
        × ((65536 ≤ length d.old) × ((65536 ≤ length e.old) × (65536 ≤ length f.old))))) }
    ensures { Outcome text0.now text1.now carriers.old turns.now budget carriers.new result }
{
    let mut decls0: [u8; 512] = [0; 512];
    match reader::check(text0, a, b, c, &mut decls0) {
        Err(refused) => refused_answer(text0, text1, 0, refused.number, refused.place),
        Ok(first) => pair_second(
            text0,
            a,
            b,
            c,
            &decls0,
            first.declarations,
            first.words,
            first.tokens,
            text1,
            d,
            e,
            f,
            carriers,
            turns,
            budget,
        ),
    }
}
