// The tokens of a body by their kinds: what separates actions, how deep they stand, where an action ends.
ghost use Rattle.std.specs.Prelude.{◌≡◌, ◌+◌, ◌<◌, ◌≤◌, drop};
ghost use Rattle.reading.specs.Kinds.{next_no, tests, begins, stores, closes, mode};
ghost use Rattle.reading.specs.Reading.{Kinded};
ghost use Rattle.reading.specs.Behind.{behind};
ghost use Rattle.reading.specs.Groups.{more};

use records::fields::kind_at;
use rules::kinds::{
    ARROW, AT, BECOMES, BEGIN, COMMA, DECODE, END, EQUALS, IF, LBRA, LESS, NEXT, NO_KIND, RBRA,
    REPEAT, SEMI,
};
use table::scans::{SEPARATOR, deeper, halts};

// Whether an expression stands behind it: `=`, IF or DECODE. Here and in `begins` each by itself, as in `table::scans`.
#[tactic(auto, unfolding(crate::specs::Kinds::tests, rules::specs::Whole::Sets::member))]
fn tests(kind: u8) -> bool
    ensures { result ≡ tests kind }
{
    kind == EQUALS || kind == IF || kind == DECODE
}

// Whether an action stands behind it, or nothing that names a carrier.
#[tactic(auto, unfolding(crate::specs::Kinds::begins, rules::specs::Whole::Sets::member))]
fn begins(kind: u8) -> bool
    ensures { result ≡ begins kind }
{
    kind == COMMA
        || kind == SEMI
        || kind == BECOMES
        || kind == ARROW
        || kind == BEGIN
        || kind == END
        || kind == NEXT
        || kind == REPEAT
}

// Whether it stands behind a name that is stored to: `[`, `<`, `=` or `@`.
#[tactic(auto, unfolding(crate::specs::Kinds::stores, rules::specs::Whole::Sets::member))]
pub fn stores(kind: u8) -> bool
    ensures { result ≡ stores kind }
{
    matches!(kind, LBRA | LESS | EQUALS | AT)
}

// Whether an action ends with a token, at the depth d in it.
#[tactic(auto, unfolding(crate::specs::Kinds::closes))]
pub fn closes(d: usize, kind: u8) -> bool
    ensures { result ≡ closes d kind }
{
    kind == END && d < 2
}

// Whether names behind a token are stored to, 0, or read.
#[tactic(auto, unfolding(crate::specs::Kinds::mode))]
pub fn mode(m: usize, kind: u8) -> usize
    requires { m < 65536 }
    ensures { (result ≡ mode m kind) × (result ≤ m + 1) }
{
    if tests(kind) {
        return 1;
    }
    if begins(kind) {
        return 0;
    }
    if kind == LBRA {
        return m + 1;
    }
    if kind == RBRA {
        return m.saturating_sub(1);
    }
    m
}

// The kind of the token i, of n.
pub fn kind_of(records: &[u8], n: usize, i: usize) -> u8
    requires { Kinded records.now n }
    ensures { (v : Kinded records.now n) → result ≡ next_no (drop i v.tokens) }
{
    if i < n { kind_at(records, i) } else { NO_KIND }
}

// The separator behind the action that begins at i.
pub fn end_of(records: &[u8], n: usize, from: usize) -> usize
    requires { Kinded records.now n }
    ensures { (from ≤ result) × ((v : Kinded records.now n) → drop result v.tokens ≡ behind 0 (drop from v.tokens)) }
{
    let mut d: usize = 0;
    for i in from..n {
        let kind = kind_at(records, i);
        if halts(SEPARATOR, d, kind) {
            return i;
        }
        d = deeper(d, kind);
    }
    from.max(n)
}

// Whether `;` stands behind the action that begins at i.
pub fn more(records: &[u8], n: usize, i: usize) -> bool
    requires { Kinded records.now n }
    ensures { (v : Kinded records.now n) → result ≡ more (drop i v.tokens) }
{
    kind_of(records, n, end_of(records, n, i)) == SEMI
}
