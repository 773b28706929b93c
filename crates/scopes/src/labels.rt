// The labels around a token, kept as a stack of their tokens' numbers in lent bytes.
ghost use Rattle.std.specs.Prelude.{◌≡◌, true, ◌+◌, ◌-◌, ◌*◌, ◌<◌, ◌≤◌, length};
ghost use Rattle.rules.specs.Text.Tokens.{Name, kind_no};
ghost use Rattle.rules.specs.Faults.Declared.{is_known};
ghost use Rattle.records.specs.Holds.{kind_byte, Tabled};
ghost use Rattle.records.specs.Words.{word_at};
ghost use Rattle.scopes.specs.Walks.{jumps};
ghost use Rattle.room.specs.Whole.{scopes_end};
ghost use Rattle.scopes.specs.Labels.{Labelled, JumpKey, Pushed, names_from};

use crate::hints::{hint, put_hint};
use cells::{get16, put16};
use keys::{NO_KEY, number_key};
use reading::kinds::kind_of;
use records::fields::{kind_at, place_at};
use records::words::same_word;
use rules::kinds::{LEAVE, NAME, RESTART};

// Whether the hint for the name leads to a label from base up to top that has its word.
fn hinted(
    text: &[u8],
    records: &[u8],
    labels: &[u8],
    n: usize,
    base: usize,
    top: usize,
    name: usize,
) -> bool
    requires { Tabled text.now records.now n × (Labelled records.now labels.now n top × ((base ≤ top) × ((name < n) × (kind_byte records.now name ≡ kind_no Name)))) }
    ensures { (v : Tabled text.now records.now n) → result ≡ true
        → is_known (word_at v.tokens name) (names_from v.tokens labels.now base (top - base)) ≡ true }
{
    let k = hint(records, labels, name);
    if k < base {
        return false;
    }
    if top <= k {
        return false;
    }
    let label = get16(labels, k) as usize;
    same_word(text, records, label, name)
}

// Whether the name has the word of a label from base up to top: each is looked at, from the last down.
fn listed(
    text: &[u8],
    records: &[u8],
    labels: &[u8],
    n: usize,
    base: usize,
    top: usize,
    name: usize,
) -> bool
    requires { Tabled text.now records.now n × (Labelled records.now labels.now n top × ((base ≤ top) × ((name < n) × (kind_byte records.now name ≡ kind_no Name)))) }
    ensures { (v : Tabled text.now records.now n)
        → result ≡ is_known (word_at v.tokens name) (names_from v.tokens labels.now base (top - base)) }
{
    for j in (base..top).rev() {
        let label = get16(labels, j) as usize;
        if same_word(text, records, label, name) {
            return true;
        }
    }
    false
}

// Whether the name has the word of a label from base up to top. A label that is found where the hint leads spares the search.
fn among(
    text: &[u8],
    records: &[u8],
    labels: &[u8],
    n: usize,
    base: usize,
    top: usize,
    name: usize,
) -> bool
    requires { Tabled text.now records.now n × (Labelled records.now labels.now n top × ((base ≤ top) × ((name < n) × (kind_byte records.now name ≡ kind_no Name)))) }
    ensures { (v : Tabled text.now records.now n)
        → result ≡ is_known (word_at v.tokens name) (names_from v.tokens labels.now base (top - base)) }
{
    if hinted(text, records, labels, n, base, top, name) {
        return true;
    }
    listed(text, records, labels, n, base, top, name)
}

// Whether it is LEAVE or RESTART.
#[tactic(auto, unfolding(crate::specs::Walks::jumps, rules::specs::Whole::Sets::member))]
fn jumps(kind: u8) -> bool
    ensures { result ≡ jumps kind }
{
    matches!(kind, LEAVE | RESTART)
}

// The key of 52 at the token i, whose kind this is: where it jumps to none of the labels from base up to top. Where a key is known that this one would not
// lower, none is looked for.
pub fn jump_key(
    text: &[u8],
    records: &[u8],
    labels: &[u8],
    n: usize,
    i: usize,
    kind: u8,
    base: usize,
    top: usize,
    known: u32,
) -> u32
    requires { Tabled text.now records.now n × (Labelled records.now labels.now n top × ((i < n) × (kind ≡ kind_byte records.now i))) }
    ensures { JumpKey text.now records.now labels.now n i base top known result }
{
    if !jumps(kind) {
        return NO_KEY;
    }
    if kind_of(records, n, i + 1) != NAME {
        return NO_KEY;
    }
    if top < base {
        return NO_KEY;
    }
    let own = number_key(52, place_at(records, i));
    if known <= own {
        return NO_KEY;
    }
    if among(text, records, labels, n, base, top, i + 1) {
        return NO_KEY;
    }
    own
}

// The top of the labels behind the `:=` at i: one more, if a name stands before it and there is a scope.
pub fn push_label(
    text: &[u8],
    records: &[u8],
    labels: &mut [u8],
    n: usize,
    i: usize,
    base: usize,
    top: usize,
) -> usize
    requires { Tabled text.now records.now n × ((i < n) × ((1 ≤ i) × ((top < scopes_end) × (2 * top + 2 ≤ length labels.old)))) }
    ensures { Pushed text.now records.now labels.old labels.new n i base top result }
{
    if top < base {
        return top;
    }
    if kind_at(records, i - 1) != NAME {
        return top;
    }
    put16(labels, top, (i - 1) as u16);
    put_hint(records, labels, i - 1, top);
    top + 1
}
