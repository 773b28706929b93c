// What is said of a chain of activations.
ghost use Rattle.std.specs.Prelude.{◌+◌, ◌*◌, ◌≤◌, length};

use excerpts::names::put_name;
use excerpts::places::offset_in;
use lines::answers::get32;
use lines::bytes::put_bytes;
use rules::limits::LONGEST_CHAIN;

// The numbers of a chain in its reason: how many bodies it lists, and from here on where their names stand.
const BODIES: usize = 1;

const FIRST_BODY: usize = 2;

// No reason lists more bodies.
const MOST_BODIES: usize = LONGEST_CHAIN + 1;

// How many bodies are listed.
fn listed(reason: &[u8]) -> usize
    requires { 96 ≤ length reason.now }
    ensures { result ≤ 17 }
{
    let bodies = get32(reason, BODIES);
    bodies.min(MOST_BODIES as u64) as usize
}

// Whether the body i is listed before, so that the chain closes with it.
fn closes(reason: &[u8], i: usize) -> bool
    requires { (96 ≤ length reason.now) × (i ≤ 17) }
{
    for k in 0..i {
        if get32(reason, FIRST_BODY + k) == get32(reason, FIRST_BODY + i) {
            return true;
        }
    }
    false
}

// The body i, behind an arrow if it is not the first.
fn put_body(out: &mut [u8], at: usize, reason: &[u8], text: &[u8], i: usize) -> usize
    requires { (at + 40 ≤ length out.old) × ((96 ≤ length reason.now) × (i ≤ 17)) }
    ensures { result ≤ at + 40 }
{
    let offset = offset_in(text, get32(reason, FIRST_BODY + i));
    if i == 0 {
        return put_name(out, at, text, offset);
    }
    let next = put_bytes(out, at, b" -> ");
    put_name(out, next, text, offset)
}

// The first n bodies.
fn put_bodies(out: &mut [u8], at: usize, reason: &[u8], text: &[u8], n: usize) -> usize
    requires { (at + 40 * 17 ≤ length out.old) × ((96 ≤ length reason.now) × (n ≤ 17)) }
    ensures { result ≤ at + 40 * 17 }
{
    let mut next = at;
    for i in 0..n {
        next = put_body(out, next, reason, text, i);
    }
    next
}

pub fn put_chain(out: &mut [u8], at: usize, reason: &[u8], text: &[u8]) -> usize
    requires { (at + 1024 ≤ length out.old) × (96 ≤ length reason.now) }
    ensures { result ≤ at + 1024 }
{
    let n = listed(reason);
    let second = put_bytes(out, at, b"chain: ");
    let third = put_bodies(out, second, reason, text, n);
    if 0 < n && closes(reason, n - 1) {
        put_bytes(out, third, b", which closes\n")
    } else {
        put_bytes(out, third, b", which is longer than 16\n")
    }
}
