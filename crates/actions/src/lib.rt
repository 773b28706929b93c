// Actions. Only BEGIN nests, and `depth` falls with each: a block holds actions, a DECODE alternatives, and these hold actions again.
#![tactic(auto)]

ghost use Rattle.std.specs.Prelude.{◌≡◌, List, ℕ, ◌+◌};
ghost use Rattle.stacks.specs.Stacks.{Kept};
ghost use Rattle.plain.specs.Actions.{ActionView, ActionAnswer, IsBlock, IsDecode};
ghost use Rattle.room.specs.Bodies.{level_base};
ghost use Rattle.actions.specs.Alternatives.{is_selector, ChoicesView, ChoicesAnswer, IsCounted, IsSelected};

use choices::{behind_selector, counted_fault, keep_start, overlap_fault, selected_fault};
use expressions::judge::expression;
use keys::{NO_KEY, earlier};
use plain::Walked;
use plain::prefixes::prefixes;
use plain::simple::simple;
use records::fields::kind_at;
use rules::kinds::{BEGIN, CONST, DECODE, END, LBRA, MASKED, OTHERWISE};

// Whether a token of this kind begins a selector: a constant, `[` or OTHERWISE.
fn has_selector(kind: u8) -> bool
    ensures { result ≡ is_selector kind }
{
    (kind == CONST) | (kind == MASKED) | (kind == LBRA) | (kind == OTHERWISE)
}

// An action, with what stands in front of it.
#[cycle(action_block_counted_decode_selected)]
pub fn action(
    records: &[u8],
    values: &[u8],
    decls: &[u8],
    room: &mut [u8],
    i: usize,
    count: usize,
    depth: usize,
) -> Walked
    requires { (text : List ℕ) × ActionView text records.now values.now decls.now room.old i count depth }
    ensures kept { Kept records.now count (level_base depth) room.old room.new }
    ensures answer { (text : List ℕ) (v : ActionView text records.now values.now decls.now room.old i count depth)
        → ActionAnswer v result }
{
    let front = prefixes(records, values, decls, room, i, count, depth);
    let at = front.at;
    let names = front.count;
    let kind = kind_at(records, at);
    if kind == BEGIN {
        let inside = block(records, values, decls, room, at, names, depth);
        return Walked {
            key: earlier(front.key, inside.key),
            next: inside.next,
        };
    }
    if kind == DECODE {
        let inside = decode(records, values, decls, room, at, names, depth);
        return Walked {
            key: earlier(front.key, inside.key),
            next: inside.next,
        };
    }
    let inside = simple(records, values, decls, room, at, names, depth);
    Walked {
        key: earlier(front.key, inside.key),
        next: inside.next,
    }
}

// A block: its members, one after the other.
#[cycle(action_block_counted_decode_selected)]
fn block(
    records: &[u8],
    values: &[u8],
    decls: &[u8],
    room: &mut [u8],
    i: usize,
    count: usize,
    depth: usize,
) -> Walked
    requires { (text : List ℕ) × (v : ActionView text records.now values.now decls.now room.old i count depth) × IsBlock v.action }
    ensures kept { Kept records.now count (level_base depth) room.old room.new }
    ensures answer { (text : List ℕ) (v : ActionView text records.now values.now decls.now room.old i count depth)
        → IsBlock v.action → ActionAnswer v result }
{
    let mut at = i + 1;
    let mut key = NO_KEY;
    // A loop: END tells that a member was the last.
    loop {
        let member = action(records, values, decls, room, at, count, depth - 1);
        key = earlier(key, member.key);
        let next = member.next;
        if kind_at(records, next) == END {
            return Walked {
                key,
                next: next + 1,
            };
        }
        at = next + 1;
    }
}

// A DECODE: its test, and its alternatives.
#[cycle(action_block_counted_decode_selected)]
fn decode(
    records: &[u8],
    values: &[u8],
    decls: &[u8],
    room: &mut [u8],
    i: usize,
    count: usize,
    depth: usize,
) -> Walked
    requires { (text : List ℕ) × (v : ActionView text records.now values.now decls.now room.old i count depth) × IsDecode v.action }
    ensures kept { Kept records.now count (level_base depth) room.old room.new }
    ensures answer { (text : List ℕ) (v : ActionView text records.now values.now decls.now room.old i count depth)
        → IsDecode v.action → ActionAnswer v result }
{
    let test = expression(records, values, decls, i + 1, depth);
    let bits = test.bits;
    let first = test.next + 2;
    if has_selector(kind_at(records, first)) {
        let inside = selected(records, values, decls, room, first, count, depth - 1, bits);
        return Walked {
            key: earlier(test.key, inside.key),
            next: inside.next,
        };
    }
    let inside = counted(records, values, decls, room, first, count, depth - 1, bits);
    Walked {
        key: earlier(test.key, inside.key),
        next: inside.next,
    }
}

// Alternatives without selectors: each is taken at its own number.
#[cycle(action_block_counted_decode_selected)]
fn counted(
    records: &[u8],
    values: &[u8],
    decls: &[u8],
    room: &mut [u8],
    i: usize,
    count: usize,
    depth: usize,
    bits: u32,
) -> Walked
    requires { (text : List ℕ) × (v : ChoicesView text records.now values.now decls.now room.old i count depth bits) × IsCounted v.alternatives }
    ensures kept { Kept records.now count (level_base (depth + 1)) room.old room.new }
    ensures answer { (text : List ℕ) (v : ChoicesView text records.now values.now decls.now room.old i count depth bits)
        → IsCounted v.alternatives → ChoicesAnswer v result }
{
    let mut at = i;
    let mut number: usize = 0;
    let mut key = NO_KEY;
    // A loop: END tells that an alternative was the last.
    loop {
        let fault = counted_fault(records, at, number, bits);
        let inside = action(records, values, decls, room, at, count, depth);
        key = earlier(key, earlier(fault, inside.key));
        number += 1;
        let next = inside.next;
        if kind_at(records, next) == END {
            return Walked {
                key,
                next: next + 1,
            };
        }
        at = next + 1;
    }
}

// Alternatives with selectors; at the end they are compared with each other.
#[cycle(action_block_counted_decode_selected)]
fn selected(
    records: &[u8],
    values: &[u8],
    decls: &[u8],
    room: &mut [u8],
    i: usize,
    count: usize,
    depth: usize,
    bits: u32,
) -> Walked
    requires { (text : List ℕ) × (v : ChoicesView text records.now values.now decls.now room.old i count depth bits) × IsSelected v.alternatives }
    ensures kept { Kept records.now count (level_base (depth + 1)) room.old room.new }
    ensures answer { (text : List ℕ) (v : ChoicesView text records.now values.now decls.now room.old i count depth bits)
        → IsSelected v.alternatives → ChoicesAnswer v result }
{
    let mut at = i;
    let mut number: usize = 0;
    let mut key = NO_KEY;
    // A loop: END tells that an alternative was the last.
    loop {
        keep_start(room, depth, number, at);
        let fault = selected_fault(records, values, at, number, bits);
        let body = behind_selector(records, at);
        let inside = action(records, values, decls, room, body, count, depth);
        key = earlier(key, earlier(fault, inside.key));
        number += 1;
        let next = inside.next;
        if kind_at(records, next) == END {
            let overlap = overlap_fault(records, values, room, depth, number);
            return Walked {
                key: earlier(key, overlap),
                next: next + 1,
            };
        }
        at = next + 1;
    }
}
