// The bodies of a description: each is linked with its own name as the outermost label, and its name leads to its first instruction.
ghost use Rattle.std.specs.Prelude.{List, ℕ, ◌+◌, ◌*◌, ◌≤◌, length};
ghost use Rattle.rules.specs.Grammar.Trees.{Tokens, Description};
ghost use Rattle.table.specs.Ready.{Ready};
ghost use Rattle.spelling.specs.Spelled.{Spelled};
ghost use Rattle.ways.specs.Seeking.{Ground};
ghost use Rattle.room.specs.Links.{hints_end};
ghost use Rattle.links.specs.Links.{Links};
ghost use Rattle.links.specs.Bodies.{BodyIn, BodyDone, PartlyAt, Partly};

use crate::actions::action;
use cells::get16;
use records::fields::put_link;
use rules::limits::DEEPEST;
use table::views::body_of;
use ways::labels::push;
use ways::prefixes::Spot;
use ways::scans::first_of;

// The body at `start` of the declaration whose name is the token `name`. It leads out.
fn body(text: &[u8], records: &mut [u8], labels: &mut [u8], name: usize, start: usize)
    requires { (g : Ground) × BodyIn g text.now records.old labels.old name start }
    ensures { (g : Ground) (v : BodyIn g text.now records.old labels.old name start) → BodyDone v records.new }
{
    let first = first_of(records, start);
    push(records, labels, 0, name, first, 0);
    let whole = Spot {
        at: start,
        link: 0,
        count: 1,
        first,
    };
    action(text, records, labels, whole, DEEPEST);
    put_link(records, name, first);
}

// The declaration number k, if it has a body.
fn declaration(text: &[u8], records: &mut [u8], decls: &[u8], labels: &mut [u8], k: usize)
    requires { PartlyAt text.now records.old decls.now labels.old k }
    ensures { (v : PartlyAt text.now records.old decls.now labels.old k)
        → Partly v.before records.new decls.now v.description (k + 1) }
{
    let name = get16(decls, k) as usize;
    if let Some(start) = body_of(records, name) {
        body(text, records, labels, name, start);
    }
}

// All m declarations, where names are spelled. The room takes the labels around an action; what it holds afterwards means nothing.
pub fn link(text: &[u8], records: &mut [u8], decls: &[u8], room: &mut [u8], m: usize)
    requires { ((values : List ℕ) × (ts : Tokens) × (d : Description) × Ready text.now records.old values decls.now ts d m × Spelled records.old ts)
        × (2 * hints_end ≤ length room.old) }
    ensures { (values : List ℕ) (ts : Tokens) (d : Description) → Ready text.now records.old values decls.now ts d m
        → Spelled records.old ts → Links records.old records.new decls.now ts d }
{
    for k in 0..m {
        declaration(text, records, decls, room, k);
    }
}
