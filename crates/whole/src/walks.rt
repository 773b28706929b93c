// The bodies, each from its first token to its last: the least key of its groups and of its jumps.
ghost use Rattle.std.specs.Prelude.{◌≡◌, ◌<◌, ◌≤◌, length};
ghost use Rattle.rules.specs.Faults.Whole.{groups_faults};
ghost use Rattle.keys.specs.Keys.{least_number_key};
ghost use Rattle.room.specs.Whole.{room_size};
ghost use Rattle.scopes.specs.Walks.{opens};
ghost use Rattle.scopes.specs.Frames.{Told, Turning};
ghost use Rattle.whole.specs.Written.{Written, whole};
ghost use Rattle.whole.specs.WalkKeys.{labels_of, Roomy, Faulty, FaultKey, TurnedIn, Walked, BodyKey};

use crate::groups::{Group, group_at};
use keys::{NO_KEY, earlier};
use reading::bodies::body_at;
use reading::kinds::closes;
use records::fields::kind_at;
use room::whole::LABELS_BYTE;
use rules::kinds::{BEGIN, NEXT};
use scopes::labels::jump_key;
use scopes::scopes::{Nest, turn};

// Whether a group begins behind it.
#[tactic(auto, unfolding(scopes::specs::Walks::opens, rules::specs::Whole::Sets::member))]
pub fn opens(kind: u8) -> bool
    ensures { result ≡ opens kind }
{
    matches!(kind, BEGIN | NEXT)
}

// The least key at the token i, whose kind this is, as far as it lowers the key that is known; with what is told of the group that begins behind it.
fn fault_at(
    text: &[u8],
    records: &[u8],
    decls: &[u8],
    room: &[u8],
    m: usize,
    n: usize,
    i: usize,
    kind: u8,
    base: usize,
    top: usize,
    known: u32,
) -> Group
    requires { Faulty text.now records.now decls.now room.now m n i kind top }
    ensures { FaultKey text.now records.now decls.now room.now m n i base top known result.key
        × Told records.now n i kind result.several }
{
    if opens(kind) {
        return group_at(records, decls, &room[..LABELS_BYTE], m, n, i + 1);
    }
    Group {
        key: jump_key(
            text,
            records,
            &room[LABELS_BYTE..],
            n,
            i,
            kind,
            base,
            top,
            known,
        ),
        several: false,
    }
}

// Behind the token i, with the labels in the room.
fn turn_in(
    text: &[u8],
    records: &[u8],
    room: &mut [u8],
    n: usize,
    i: usize,
    kind: u8,
    several: bool,
    depth: usize,
    base: usize,
    top: usize,
) -> Nest
    requires { Turning text.now records.now (labels_of room.old) n i kind several depth base top × (room_size ≤ length room.old) }
    ensures { TurnedIn text.now records.now room.old room.new n i depth base top result.depth result.base result.top }
{
    turn(
        text,
        records,
        &mut room[LABELS_BYTE..],
        n,
        i,
        kind,
        several,
        depth,
        base,
        top,
    )
}

// The least key of the body at from.
fn walk_key(
    text: &[u8],
    records: &[u8],
    decls: &[u8],
    room: &mut [u8],
    m: usize,
    n: usize,
    from: usize,
) -> u32
    requires { Written text.now records.now decls.now m n × (Roomy records.now decls.now room.old m n × (1 ≤ from)) }
    ensures { Walked text.now records.now decls.now room.old room.new m n from result }
{
    let mut key = NO_KEY;
    let mut depth: usize = 0;
    let mut base: usize = 1;
    let mut top: usize = 0;
    for i in from..n {
        let kind = kind_at(records, i);
        if closes(depth, kind) {
            return key;
        }
        let here = fault_at(text, records, decls, room, m, n, i, kind, base, top, key);
        key = earlier(key, here.key);
        let several = here.several;
        let next = turn_in(text, records, room, n, i, kind, several, depth, base, top);
        depth = next.depth;
        base = next.base;
        top = next.top;
    }
    key
}

// The least key of the body of the declaration k.
fn body_key(
    text: &[u8],
    records: &[u8],
    decls: &[u8],
    room: &mut [u8],
    m: usize,
    n: usize,
    k: usize,
) -> u32
    requires { Written text.now records.now decls.now m n × (Roomy records.now decls.now room.old m n × (k < m)) }
    ensures { BodyKey text.now records.now decls.now room.old room.new m n k result }
{
    let Some(body) = body_at(records, decls, m, n, k) else {
        return NO_KEY;
    };
    walk_key(text, records, decls, room, m, n, body)
}

// The least key of 52 and 53.
pub fn groups_key(
    text: &[u8],
    records: &[u8],
    decls: &[u8],
    room: &mut [u8],
    m: usize,
    n: usize,
) -> u32
    requires { Written text.now records.now decls.now m n × Roomy records.now decls.now room.old m n }
    ensures { (v : Written text.now records.now decls.now m n) → result ≡ least_number_key (groups_faults (whole v) (whole v)) }
{
    let mut key = NO_KEY;
    for k in 0..m {
        key = earlier(key, body_key(text, records, decls, room, m, n, k));
    }
    key
}
