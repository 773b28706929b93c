// What each body reads and writes, gathered once, by recursion down its activations. The remaining length of the chain falls.
ghost use Rattle.std.specs.Prelude.{◌≡◌, false, ℕ, ◌*◌, ◌<◌, ◌≤◌, length, drop};
ghost use Rattle.rules.specs.Text.Tokens.{Name, kind_no};
ghost use Rattle.rules.specs.Declarations.{Word};
ghost use Rattle.rules.specs.Whole.Sets.{any_name, chain_over};
ghost use Rattle.rules.specs.Limits.{longest_chain};
ghost use Rattle.records.specs.Holds.{kind_byte};
ghost use Rattle.records.specs.Words.{word_at};
ghost use Rattle.reading.specs.Reading.{Reading, table_of};
ghost use Rattle.reading.specs.Events.{heard};
ghost use Rattle.reading.specs.Calls.{calls_of};
ghost use Rattle.gathering.specs.Filling.{Fillable, Fills, Grows, AllDone, Complete};
ghost use Rattle.gathering.specs.Memory.{mark_of, CarrierOf, Carrying};

use crate::memory::{ABOVE_MARK, mark_in, nothing, put_word, remember};
use crate::touches::touched;
use cells::get16;
use reading::bodies::body_at;
use reading::calls::next_call;
use reading::names::carrier;
use records::fields::inside_at;
use rules::limits::{LONGEST_CHAIN, MOST_DECLARATIONS};

// Gathers the body of the name i, whose chains are at most left bodies long.
#[cycle(descend_gather)]
pub fn gather(
    records: &[u8],
    decls: &[u8],
    memo: &mut [u8],
    m: usize,
    n: usize,
    i: usize,
    left: usize,
)
    requires { Fillable records.now decls.now memo.old m n × ((i < n) × ((kind_byte records.now i ≡ kind_no Name)
        × ((left ≤ longest_chain) × ((v : Reading records.now decls.now m n) → chain_over (table_of v) left (word_at v.tokens i) ≡ false)))) }
    ensures { Fills records.now decls.now memo.old memo.new m n i }
{
    let k = inside_at(records, i);
    if m <= k {
        return;
    }
    if mark_in(memo, 9 * k) != 0 {
        return;
    }
    let Some(body) = body_at(records, decls, m, n, k) else {
        remember(memo, k, nothing());
        return;
    };
    descend(records, decls, memo, m, n, body, left - 1);
    let t = touched(records, decls, memo, m, n, body);
    remember(memo, k, t);
}

// Gathers the bodies that the action at from activates.
#[cycle(descend_gather)]
fn descend(
    records: &[u8],
    decls: &[u8],
    memo: &mut [u8],
    m: usize,
    n: usize,
    from: usize,
    left: usize,
)
    requires { Fillable records.now decls.now memo.old m n × ((left ≤ longest_chain)
        × ((v : Reading records.now decls.now m n) → any_name (chain_over (table_of v) left) (calls_of (heard 0 0 (drop from v.tokens))) ≡ false)) }
    ensures { Grows records.now decls.now memo.old memo.new m n
        × ((v : Reading records.now decls.now m n) → AllDone v memo.new (calls_of (heard 0 0 (drop from v.tokens)))) }
{
    let mut at = from;
    let mut depth: usize = 0;
    let mut mode: usize = 0;
    // A loop: each activation tells where the next is looked for.
    loop {
        let call = next_call(records, n, at, depth, mode);
        let name = call.name;
        if n <= name {
            return;
        }
        gather(records, decls, memo, m, n, name, left);
        at = call.at;
        depth = call.depth;
        mode = call.mode;
    }
}

// The storage carrier under the name of the declaration k; 256 where there is none.
fn own_carrier(records: &[u8], decls: &[u8], m: usize, n: usize, k: usize) -> u64
    requires { Reading records.now decls.now m n × (k < m) }
    ensures { (result ≤ 256) × ((v : Reading records.now decls.now m n) → CarrierOf v k result) }
{
    let p = get16(decls, k) as usize;
    let c = carrier(records, decls, m, n, p);
    if c < MOST_DECLARATIONS {
        return c as u64;
    }
    MOST_DECLARATIONS as u64
}

// Notes the carriers, and takes all marks away.
fn note_carriers(records: &[u8], decls: &[u8], memo: &mut [u8], m: usize, n: usize)
    requires { Reading records.now decls.now m n × (72 * m ≤ length memo.old) }
    ensures { Carrying records.now decls.now memo.new m n × ((k : ℕ) → k < m → mark_of memo.new k ≡ 0) }
{
    for k in 0..m {
        let c = own_carrier(records, decls, m, n, k);
        put_word(memo, 9 * k, ABOVE_MARK * c);
    }
}

// Gathers all bodies, where no chain is over 16 bodies long.
pub fn gather_all(records: &[u8], decls: &[u8], memo: &mut [u8], m: usize, n: usize)
    requires { Reading records.now decls.now m n × ((72 * m ≤ length memo.old)
        × ((v : Reading records.now decls.now m n) (w : Word) → chain_over (table_of v) longest_chain w ≡ false)) }
    ensures { Complete records.now decls.now memo.new m n }
{
    note_carriers(records, decls, memo, m, n);
    for k in 0..m {
        gather(
            records,
            decls,
            memo,
            m,
            n,
            get16(decls, k) as usize,
            LONGEST_CHAIN,
        );
    }
}
