// What is refused of two accepted texts, their carriers and their turns, in this order: 80 of the second text; then 81, 32, 60 and 61.
ghost use Rattle.std.specs.Prelude.{ℕ, ◌*◌, ◌≤◌, length};
ghost use Rattle.table.specs.Ready.{Scene, table_of};
ghost use Rattle.pair_tables.specs.Standing.{Stands, declared_by};
ghost use Rattle.pair_tables.specs.Joining.{Joins};
ghost use Rattle.pair_tables.specs.Judging.{Carries, Judges};

use crate::joining::join;
use crate::lengths::start_joint;
use crate::turns::first_bad_turn;
use declare::counting::words;
use keys::{NO_KEY, fault_of};
use rules::limits::MOST_WORDS;
use rules::refusals::Refusal;

// A refusal of two texts, and the side whose it is: 81, 32, 60 and 61 are told as the first text's.
#[derive(Clone, Copy, PartialEq, Eq)]
pub struct PairRefusal {
    pub side: u32,
    pub refusal: Refusal,
}

// Whether the joint table of so many words is not too large, and the carriers are its words: 32, 60, 61.
fn judge_carriers(
    records0: &[u8],
    values0: &[u8],
    decls0: &[u8],
    m0: usize,
    records1: &[u8],
    values1: &[u8],
    decls1: &[u8],
    m1: usize,
    firsts: &[u8],
    total: usize,
    carriers: &[u8],
) -> Result<(), Refusal>
    requires by_index { (key : ℕ) × (v : Scene records0.now values0.now decls0.now m0) × (w : Scene records1.now values1.now decls1.now m1)
        × Joins (table_of v) (table_of w) firsts.now key total }
    requires m1_in_bounds { 2 * m1 ≤ length firsts.now }
    ensures { (key : ℕ) (v : Scene records0.now values0.now decls0.now m0)
        (w : Scene records1.now values1.now decls1.now m1)
        → Joins (table_of v) (table_of w) firsts.now key total → Carries (table_of v) (table_of w) carriers.now result }
{
    if MOST_WORDS < total {
        return Err(Refusal {
            number: 32,
            place: 0,
        });
    }
    if carriers.len() != 8 * total {
        return Err(Refusal {
            number: 60,
            place: 0,
        });
    }
    let words0 = words(records0, values0, decls0, m0);
    start_joint(
        records0, values0, decls0, m0, records1, values1, decls1, m1, firsts, words0, carriers,
    )
}

// Judges the turns of two accepted texts over their carriers. The second one's first words in the table are written, two bytes each.
pub fn judge(
    text0: &[u8],
    records0: &[u8],
    values0: &[u8],
    decls0: &[u8],
    m0: usize,
    text1: &[u8],
    records1: &[u8],
    values1: &[u8],
    decls1: &[u8],
    m1: usize,
    firsts: &mut [u8],
    carriers: &[u8],
    turns: &[u8],
) -> Result<(), PairRefusal>
    requires stands { Stands text0.now records0.now values0.now decls0.now m0 × Stands text1.now records1.now values1.now decls1.now m1 }
    requires m1_in_bounds { 2 * m1 ≤ length firsts.old }
    ensures { (v : Stands text0.now records0.now values0.now decls0.now m0)
        (w : Stands text1.now records1.now values1.now decls1.now m1)
        → Judges (declared_by v) (declared_by w) firsts.new carriers.now turns.now result }
{
    let joined = join(
        text0, records0, values0, decls0, m0, text1, records1, values1, decls1, m1, firsts,
    );
    let key = joined.key;
    if key != NO_KEY {
        return Err(PairRefusal {
            side: 1,
            refusal: fault_of(key),
        });
    }
    let bad = first_bad_turn(turns);
    if bad < turns.len() {
        let refusal = Refusal {
            number: 81,
            place: bad,
        };
        return Err(PairRefusal { side: 0, refusal });
    }
    let total = joined.words;
    match judge_carriers(
        records0, values0, decls0, m0, records1, values1, decls1, m1, firsts, total, carriers,
    ) {
        Err(refusal) => Err(PairRefusal { side: 0, refusal }),
        Ok(()) => Ok(()),
    }
}
