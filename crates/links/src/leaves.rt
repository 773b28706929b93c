// The links of an action that has no action inside.
ghost use Rattle.std.specs.Prelude.{List, ℕ};
ghost use Rattle.ways.specs.Seeking.{Ground};
ghost use Rattle.ways.specs.Standing.{ActionAt, Done};
ghost use Rattle.links.specs.Leaves.{Named, LeafAt};

use records::fields::{kind_at, put_inside, put_link};
use rules::kinds::{EQUALS, LEAVE, LPAR, NO_OP, RESTART, STOP};
use ways::labels::{BEHIND, START, aim};
use ways::prefixes::Spot;
use ways::scans::seek;

// An activation, whose record has the number of its declaration already, or a transfer, which leads inside to its `=`.
fn named(records: &mut [u8], at: usize, link: usize)
    requires { (g : Ground) × (labels : List ℕ) × (count : ℕ) × (first : ℕ) × (depth : ℕ) × (v : ActionAt g records.old labels at link count first depth) × Named v }
    ensures { (g : Ground) (labels : List ℕ) (count first depth : ℕ) (v : ActionAt g records.old labels at link count first depth)
        → Named v → Done v records.new labels }
{
    if kind_at(records, at + 1) == LPAR {
        put_link(records, at, link);
        return;
    }
    let equals = seek(records, at + 1, EQUALS);
    put_inside(records, at, equals);
    put_link(records, at, link);
}

pub fn leaf(text: &[u8], records: &mut [u8], labels: &[u8], s: Spot)
    requires { (g : Ground) × (depth : ℕ) × LeafAt g text.now records.old labels.now s.at s.link s.count s.first depth }
    ensures { (g : Ground) (depth : ℕ) (v : LeafAt g text.now records.old labels.now s.at s.link s.count s.first depth)
        → Done v.view records.new labels.now }
{
    let at = s.at;
    let link = s.link;
    let count = s.count;
    let kind = kind_at(records, at);
    if kind == LEAVE {
        let to = aim(text, records, labels, count, at + 1, BEHIND);
        put_link(records, at, to);
        return;
    }
    if kind == RESTART {
        let to = aim(text, records, labels, count, at + 1, START);
        put_link(records, at, to);
        return;
    }
    if kind == NO_OP {
        put_link(records, at, link);
        return;
    }
    if kind == STOP {
        return;
    }
    named(records, at, link);
}
