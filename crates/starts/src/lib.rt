// Whether carriers can start a run: the refusals 60 and 61.
#![tactic(auto)]

ghost use Rattle.std.specs.Prelude.{◌≡◌, List, leb, length, ℕ, ◌+◌, ◌*◌, ◌^◌, ◌<◌, ◌≤◌};
ghost use Rattle.rules.specs.Grammar.Trees.{Tokens, Description};
ghost use Rattle.rules.specs.Declarations.{declarations};
ghost use Rattle.table.specs.Ready.{Ready};
ghost use Rattle.starts.specs.Starts.{Starts};
ghost use Rattle.starts.specs.Sought.{Sought};

use cells::{get16, get64};
use declare::counting::words;
use declare::faults::words_in;
use rules::refusals::Refusal;
use spans::last_of;
use table::views::bits_of;

// Whether a word has a bit above its lowest `last` + 1. A shift by 64 is not allowed, so the last of these bits stays.
fn is_long(word: u64, last: u64) -> bool
    requires { last < 64 }
    ensures { result ≡ leb (2 ^ (last + 1)) word }
{
    1 < word >> last
}

// The first of the words from `at` to before `end` that has a bit above its lowest `last` + 1; `end` where none has.
pub fn first_long(carriers: &[u8], at: usize, end: usize, last: u64) -> usize
    requires { (at ≤ end) × (8 * end ≤ length carriers.now) × (last < 64) }
    ensures { Sought carriers.now at end (last + 1) result }
{
    for i in at..end {
        if is_long(get64(carriers, i), last) {
            return i;
        }
    }
    end
}

// Whether the carriers are 8 bytes a word, and no word has a bit above its length.
pub fn start(
    records: &[u8],
    values: &[u8],
    decls: &[u8],
    m: usize,
    carriers: &[u8],
) -> Result<(), Refusal>
    requires { (text : List ℕ) × (ts : Tokens) × (d : Description) × Ready text records.now values.now decls.now ts d m }
    ensures { (text : List ℕ) (ts : Tokens) (d : Description) → Ready text records.now values.now decls.now ts d m
        → Starts (declarations d) carriers.now result }
{
    if carriers.len() != 8 * words(records, values, decls, m) {
        return Err(Refusal {
            number: 60,
            place: 0,
        });
    }
    let mut at: usize = 0;
    for k in 0..m {
        let p = get16(decls, k) as usize;
        let end = at + words_in(records, values, p);
        let last = last_of(bits_of(records, values, p));
        let long = first_long(carriers, at, end, last);
        if long < end {
            return Err(Refusal {
                number: 61,
                place: 8 * long,
            });
        }
        at = end;
    }
    Ok(())
}
