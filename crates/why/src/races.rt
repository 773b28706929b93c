// What is said of a race.
ghost use Rattle.std.specs.Prelude.{◌+◌, ◌≤◌, length};

use excerpts::excerpts::put_excerpt;
use excerpts::names::put_name;
use excerpts::places::{offset_in, put_place};
use lines::answers::get32;
use lines::bytes::put_bytes;

// The numbers of a race in its reason.
const EARLIER: usize = 1;

const LATER: usize = 2;

const CARRIER: usize = 4;

const WRITERS: usize = 5;

// Who writes, by that number.
const BY_EARLIER: u64 = 1;

const BY_LATER: u64 = 2;

fn put_member(out: &mut [u8], at: usize, text: &[u8], offset: usize, which: &[u8]) -> usize
    requires { (at + 96 ≤ length out.old) × ((offset ≤ 32769) × (length which.now ≤ 32)) }
    ensures { result ≤ at + 96 }
{
    let next = put_place(out, at, text, offset);
    put_bytes(out, next, which)
}

fn put_writers(out: &mut [u8], at: usize, writers: u64) -> usize
    requires { at + 32 ≤ length out.old }
    ensures { result ≤ at + 32 }
{
    match writers {
        BY_EARLIER => put_bytes(out, at, b"; the first writes it\n"),
        BY_LATER => put_bytes(out, at, b"; the second writes it\n"),
        _ => put_bytes(out, at, b"; both write it\n"),
    }
}

fn put_shared(out: &mut [u8], at: usize, text: &[u8], offset: usize, writers: u64) -> usize
    requires { (at + 160 ≤ length out.old) × ((offset ≤ length text.now) × (length text.now ≤ 32769)) }
    ensures { result ≤ at + 160 }
{
    let second = put_place(out, at, text, offset);
    let third = put_bytes(out, second, b"they share ");
    let fourth = put_name(out, third, text, offset);
    put_writers(out, fourth, writers)
}

// Both members, of which the second has been shown.
fn put_members(out: &mut [u8], at: usize, reason: &[u8], text: &[u8]) -> usize
    requires { (at + 512 ≤ length out.old) × ((96 ≤ length reason.now) × (length text.now ≤ 32769)) }
    ensures { result ≤ at + 512 }
{
    let first = offset_in(text, get32(reason, EARLIER));
    let second = offset_in(text, get32(reason, LATER));
    let next = put_member(out, at, text, first, b"the first member\n");
    let behind = put_excerpt(out, next, text, first);
    put_member(out, behind, text, second, b"the second member\n")
}

// The members, and the carrier that they share.
pub fn put_race(out: &mut [u8], at: usize, reason: &[u8], text: &[u8]) -> usize
    requires { (at + 1024 ≤ length out.old) × ((96 ≤ length reason.now) × (length text.now ≤ 32769)) }
    ensures { result ≤ at + 1024 }
{
    let next = put_members(out, at, reason, text);
    let carrier = offset_in(text, get32(reason, CARRIER));
    put_shared(out, next, text, carrier, get32(reason, WRITERS))
}
