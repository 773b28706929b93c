// Searches along the tokens outside of blocks: where they end, and how many BEGINs are open.
ghost use Rattle.std.specs.Prelude.{◌≡◌, ◌+◌, ◌<◌, ◌≤◌};
ghost use Rattle.table.specs.Scans.{separates, stops, halts, deeper};

use rules::kinds::{BEGIN, COMMA, END, NEXT, SEMI};

// The goal of a search for the end of an action: any token that separates actions.
pub const SEPARATOR: u8 = 0;

// Whether it stands behind an action: `,`, `;`, END or NEXT. Each by itself: neighbours in one pattern are compared as a range, which a walk pays for with
// each token.
#[tactic(auto, unfolding(crate::specs::Scans::separates, rules::specs::Whole::Sets::member))]
fn separates(kind: u8) -> bool
    ensures { result ≡ separates kind }
{
    kind == COMMA || kind == SEMI || kind == END || kind == NEXT
}

// Whether it is what is looked for.
fn stops(goal: u8, kind: u8) -> bool
    ensures { result ≡ stops goal kind }
{
    if goal == SEPARATOR {
        return separates(kind);
    }
    kind == goal
}

// Whether the search ends at a token, with d BEGINs open.
pub fn halts(goal: u8, d: usize, kind: u8) -> bool
    ensures { result ≡ halts goal d kind }
{
    d == 0 && stops(goal, kind)
}

// How many BEGINs are open behind a token, with d before it.
pub fn deeper(d: usize, kind: u8) -> usize
    requires { d < 65536 }
    ensures { (result ≡ deeper d kind) × (result ≤ d + 1) }
{
    if kind == BEGIN {
        return d + 1;
    }
    if kind == END {
        if d == 0 {
            return 0;
        }
        return d - 1;
    }
    d
}
