// The separators of the alternatives of a DECODE: its BEGIN and each `,` lead inside to the alternative, and behind to the next separator.
ghost use Rattle.std.specs.Prelude.{◌≡◌};
ghost use Rattle.ways.specs.Seeking.{Ground};
ghost use Rattle.ways.specs.Turns.{AlternativeAt, selects, Behind-lead, Extends};

use crate::scans::{first_of, seek};
use records::fields::{kind_at, put_inside, put_link};
use rules::kinds::{BECOMES, CONST, LBRA, MASKED, OTHERWISE};
use table::scans::SEPARATOR;

// Where the action of an alternative begins, the separator behind it, and its first instruction.
#[derive(Clone, Copy)]
pub struct Extent {
    pub from: usize,
    pub end: usize,
    pub first: usize,
}

// Whether it begins a selector.
fn selects(kind: u8) -> bool
    ensures { result ≡ selects kind }
{
    match kind {
        CONST => true,
        MASKED => true,
        LBRA => true,
        OTHERWISE => true,
        _ => false,
    }
}

// The first token of the action of the alternative behind the separator p.
fn behind_selector(records: &[u8], p: usize) -> usize
    requires { (g : Ground) × AlternativeAt g records.now p }
    ensures { (g : Ground) (v : AlternativeAt g records.now p) → Behind-lead v result }
{
    let kind = kind_at(records, p + 1);
    if selects(kind) {
        return seek(records, p + 1, BECOMES) + 1;
    }
    p + 1
}

// The links of the separator p.
pub fn separator(records: &mut [u8], p: usize) -> Extent
    requires { (g : Ground) × AlternativeAt g records.old p }
    ensures { (g : Ground) (v : AlternativeAt g records.old p) → Extends v records.new result.from result.end result.first }
{
    let from = behind_selector(records, p);
    let end = seek(records, from, SEPARATOR);
    let first = first_of(records, from);
    put_inside(records, p, first);
    put_link(records, p, end);
    Extent { from, end, first }
}
