// Searches along the tokens: for the end of an action, for a mark at its own depth, for the first instruction of an action.
ghost use Rattle.std.specs.Prelude.{◌≡◌, ◌∷◌, ◌+◌, ◌≤◌, drop};
ghost use Rattle.ways.specs.Seeking.{Ground, Seeks, Starts};
ghost use Rattle.laws_code.specs.Cited.Code.{first_of};

use records::fields::kind_at;
use rules::kinds::{BECOMES, BEGIN, NAME};
use table::scans::{deeper, halts};

// The first token from `from` on that is looked for, outside of blocks.
pub fn seek(records: &[u8], from: usize, goal: u8) -> usize
    requires { (g : Ground) × Seeks g records.now from goal }
    ensures { (from ≤ result) × ((g : Ground) (v : Seeks g records.now from goal) → drop result g.tokens ≡ v.next ∷ v.rest) }
{
    let mut d: usize = 0;
    let mut i = from;
    // A loop: no count says where the mark stands.
    loop {
        let kind = kind_at(records, i);
        if halts(goal, d, kind) {
            return i;
        }
        d = deeper(d, kind);
        i += 1;
    }
}

// The first instruction of the action that begins at i: behind the labels and BEGINs in front of it.
pub fn first_of(records: &[u8], i: usize) -> usize
    requires { (g : Ground) × Starts g records.now i }
    ensures { (g : Ground) (v : Starts g records.now i) → result ≡ first_of i v.action }
{
    let mut at = i;
    // A loop: it takes one token or two at a step.
    loop {
        let kind = kind_at(records, at);
        if kind == BEGIN {
            at += 1;
            continue;
        }
        if kind != NAME {
            return at;
        }
        if kind_at(records, at + 1) != BECOMES {
            return at;
        }
        at += 2;
    }
}
