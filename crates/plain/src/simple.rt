// Actions with nothing inside: LEAVE, RESTART, activations, STOP(), NO.OP() and transfers.
ghost use Rattle.std.specs.Prelude.{◌≡◌, List, ℕ};
ghost use Rattle.keys.specs.Keys.{least_key};
ghost use Rattle.plain.specs.Actions.{ActionView, ActionAnswer, Simple};
ghost use Rattle.plain.specs.Jumps.{is_jump, JumpView, jump_faults, CallView, call_faults, TransferView, TransferAnswer};

use crate::Walked;
use cells::get16;
use destinations::destination;
use expressions::judge::expression;
use keys::{NO_KEY, earlier, fault_key};
use records::fields::{inside16_at, kind_at, place_at};
use rules::kinds::{LEAVE, LPAR, NAME, RESTART};
use stacks::is_stacked;
use table::meanings::{OUTER_ONLY, UNKNOWN};
use table::views::body_of;

fn is_jump(kind: u8) -> bool
    ensures { result ≡ is_jump kind }
{
    (kind == LEAVE) | (kind == RESTART)
}

// 44 at the keyword i, where its target is no name around it.
fn jump_fault(records: &[u8], room: &[u8], i: usize, count: usize) -> u32
    requires { JumpView records.now room.now i count }
    ensures { (v : JumpView records.now room.now i count) → result ≡ least_key (jump_faults v) }
{
    if is_stacked(records, room, count, i + 1) {
        return NO_KEY;
    }
    fault_key(44, place_at(records, i))
}

// 40 and 41 for the activation of the name i, which must have a body.
fn call_fault(records: &[u8], decls: &[u8], i: usize) -> u32
    requires { CallView records.now decls.now i }
    ensures { (v : CallView records.now decls.now i) → result ≡ least_key (call_faults v) }
{
    let place = place_at(records, i);
    let number = inside16_at(records, i);
    if number == UNKNOWN {
        return fault_key(40, place);
    }
    if number == OUTER_ONLY {
        return fault_key(41, place);
    }
    let declared = get16(decls, number as usize) as usize;
    if body_of(records, declared).is_none() {
        return fault_key(41, place);
    }
    NO_KEY
}

// A transfer: its destination, and the expression behind `=`.
fn transfer(records: &[u8], values: &[u8], decls: &[u8], i: usize, depth: usize) -> Walked
    requires { TransferView records.now values.now decls.now i depth }
    ensures { (v : TransferView records.now values.now decls.now i depth) → TransferAnswer v result }
{
    let to = destination(records, values, decls, i, depth);
    let value = expression(records, values, decls, to.next + 1, depth);
    Walked {
        key: earlier(to.key, value.key),
        next: value.next,
    }
}

// A simple action.
pub fn simple(
    records: &[u8],
    values: &[u8],
    decls: &[u8],
    room: &[u8],
    i: usize,
    count: usize,
    depth: usize,
) -> Walked
    requires { (text : List ℕ) × (v : ActionView text records.now values.now decls.now room.now i count depth) × Simple v.action }
    ensures { (text : List ℕ) (v : ActionView text records.now values.now decls.now room.now i count depth)
        → Simple v.action → ActionAnswer v result }
{
    let kind = kind_at(records, i);
    if kind == NAME {
        if kind_at(records, i + 1) == LPAR {
            return Walked {
                key: call_fault(records, decls, i),
                next: i + 3,
            };
        }
        return transfer(records, values, decls, i, depth);
    }
    if is_jump(kind) {
        return Walked {
            key: jump_fault(records, room, i, count),
            next: i + 2,
        };
    }
    Walked {
        key: NO_KEY,
        next: i + 3,
    }
}
