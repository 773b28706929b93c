// What the names mean: each name's record takes the number of its first declaration.
#![tactic(auto)]

ghost use Rattle.std.specs.Prelude.{◌≡◌, List, ◌+◌, ◌*◌, ◌<◌, ◌≤◌, length};
ghost use Rattle.rules.specs.Limits.{most_tokens};
ghost use Rattle.rules.specs.Grammar.Trees.{Tokens, Declaration};
ghost use Rattle.rules.specs.Declarations.{Word};
ghost use Rattle.records.specs.Words.{word_at};
ghost use Rattle.resolving.specs.Resolving.{SpelledIn, Lists, InsideOnly, Forgotten, MarkedFrom, MeantTo};

use cells::get16;
use records::fields::{inside16_at, kind_at, link_at, put_inside};
use rules::kinds::NAME;
use table::meanings::{OUTER_ONLY, UNKNOWN};

// Leaves no meaning at the n tokens.
fn forget(records: &mut [u8], n: usize)
    requires { (8 * n ≤ length records.old) × (n ≤ most_tokens) }
    ensures { InsideOnly records.old records.new × Forgotten records.new n }
{
    for i in 0..n {
        put_inside(records, i, UNKNOWN as usize);
    }
}

// Marks the spelling of the k-th declaration's name.
fn mark_one(records: &mut [u8], decls: &[u8], k: usize)
    requires { (ts : Tokens) × (list : List Declaration) × Lists records.old decls.now ts list × (k < length list) }
    ensures inside_only { InsideOnly records.old records.new }
    ensures marked_from { (ts : Tokens) (outer : Word) (list : List Declaration) → Lists records.old decls.now ts list → k < length list
        → MarkedFrom records.old ts outer list (k + 1) → MarkedFrom records.new ts outer list k }
{
    let p = get16(decls, k) as usize;
    put_inside(records, link_at(records, p), k);
}

// Marks the spelling of the outer name, and then those of the m declarations, from the last to the first.
fn mark(records: &mut [u8], decls: &[u8], m: usize)
    requires { (ts : Tokens) × (list : List Declaration) × Lists records.old decls.now ts list × (m ≡ length list) }
    ensures inside_only { InsideOnly records.old records.new }
    ensures marked_from { (ts : Tokens) (list : List Declaration) → Lists records.old decls.now ts list → m ≡ length list
        → Forgotten records.old (length ts) → MarkedFrom records.new ts (word_at ts 0) list 0 }
{
    put_inside(records, link_at(records, 0), OUTER_ONLY as usize);
    for k in (0..m).rev() {
        mark_one(records, decls, k);
    }
}

// The token i, if it is a name, takes the meaning of its spelling.
fn resolve_one(records: &mut [u8], i: usize)
    requires { (ts : Tokens) × SpelledIn records.old ts × (i < length ts) }
    ensures inside_only { InsideOnly records.old records.new }
    ensures marked_from { (ts : Tokens) (outer : Word) (list : List Declaration) → SpelledIn records.old ts → i < length ts
        → MarkedFrom records.old ts outer list 0 → MeantTo records.old ts outer list i
        → MarkedFrom records.new ts outer list 0 × MeantTo records.new ts outer list (i + 1) }
{
    if kind_at(records, i) == NAME {
        let meaning = inside16_at(records, link_at(records, i));
        put_inside(records, i, meaning as usize);
    }
}

// Gives each of the n tokens that is a name the meaning of its spelling.
fn resolve(records: &mut [u8], n: usize)
    requires { (ts : Tokens) × SpelledIn records.old ts × (n ≡ length ts) }
    ensures inside_only { InsideOnly records.old records.new }
    ensures meant_to { (ts : Tokens) (outer : Word) (list : List Declaration) → SpelledIn records.old ts → n ≡ length ts
        → MarkedFrom records.old ts outer list 0 → MeantTo records.new ts outer list n }
{
    for i in 0..n {
        resolve_one(records, i);
    }
}

// Gives each of the n tokens that is a name its meaning by the m declarations.
pub fn give_meanings(records: &mut [u8], decls: &[u8], m: usize, n: usize)
    requires { (ts : Tokens) × (list : List Declaration) × Lists records.old decls.now ts list × (m ≡ length list) × (n ≡ length ts) }
    ensures inside_only { InsideOnly records.old records.new }
    ensures meant_to { (ts : Tokens) (list : List Declaration) → Lists records.old decls.now ts list → m ≡ length list → n ≡ length ts
        → MeantTo records.new ts (word_at ts 0) list n }
{
    forget(records, n);
    mark(records, decls, m);
    resolve(records, n);
}
