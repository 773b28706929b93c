// Labels, IFs and REPEATs in front of an action.
ghost use Rattle.std.specs.Prelude.{List, ℕ};
ghost use Rattle.stacks.specs.Stacks.{Kept};
ghost use Rattle.plain.specs.Actions.{ActionView};
ghost use Rattle.room.specs.Bodies.{label_cells};
ghost use Rattle.plain.specs.Prefixes.{PrefixAnswer};

use crate::labels::is_label;
use expressions::judge::expression;
use keys::{NO_KEY, earlier};
use records::fields::kind_at;
use rules::kinds::{IF, REPEAT};
use stacks::push;

// The key of the least fault in front of an action, where the action begins, and how many names stand around it.
#[derive(Clone, Copy)]
pub struct Prefixed {
    pub key: u32,
    pub at: usize,
    pub count: usize,
}

// Passes over what stands in front of the action i. A label is stacked: it holds inside its action.
pub fn prefixes(
    records: &[u8],
    values: &[u8],
    decls: &[u8],
    room: &mut [u8],
    i: usize,
    count: usize,
    depth: usize,
) -> Prefixed
    requires { (text : List ℕ) × ActionView text records.now values.now decls.now room.old i count depth }
    ensures kept { Kept records.now count label_cells room.old room.new }
    ensures answer { (text : List ℕ) (v : ActionView text records.now values.now decls.now room.old i count depth)
        → PrefixAnswer v room.new result }
{
    let mut at = i;
    let mut names = count;
    let mut key = NO_KEY;
    // A loop: REPEAT is one token, IF an expression and more, and a label two.
    loop {
        let kind = kind_at(records, at);
        if kind == REPEAT {
            at += 1;
            continue;
        }
        if kind == IF {
            let test = expression(records, values, decls, at + 1, depth);
            key = earlier(key, test.key);
            at = test.next + 1;
            continue;
        }
        if !is_label(records, at) {
            return Prefixed {
                key,
                at,
                count: names,
            };
        }
        push(records, room, names, at);
        names += 1;
        at += 2;
    }
}
