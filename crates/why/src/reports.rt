// All that is said of a text.
ghost use Rattle.std.specs.Prelude.{◌+◌, ◌≤◌, length};

use crate::activations::put_chain;
use crate::races::put_race;
use excerpts::excerpts::put_excerpt;
use excerpts::places::offset_in;
use lines::answers::{Answer, Ending, get32};
use lines::bytes::{put_byte, put_bytes};
use lines::digits::put_decimal;
use lines::refusals::put_refused;
use sentences::put_sentence;

// Numbers below it belong to the call and have no place in the text.
const FIRST_OF_TEXT: u64 = 10;

// What a reason begins with where there is more to say.
const RACE: u64 = 1;

const CHAIN: u64 = 2;

// So many of a thing.
fn put_count(out: &mut [u8], at: usize, n: u64, thing: &[u8]) -> usize
    requires { (at + 64 ≤ length out.old) × (length thing.now ≤ 32) }
    ensures { result ≤ at + 64 }
{
    let second = put_decimal(out, at, n);
    let third = put_bytes(out, second, thing);
    if n == 1 {
        return third;
    }
    put_byte(out, third, b's')
}

fn put_accepted(out: &mut [u8], a: Answer) -> usize
    requires { 4096 ≤ length out.old }
    ensures { result ≤ 256 }
{
    let second = put_bytes(out, 0, b"accepted: ");
    let third = put_count(out, second, a.declarations, b" declaration");
    let fourth = put_bytes(out, third, b", ");
    let fifth = put_count(out, fourth, a.words, b" word");
    put_byte(out, fifth, b'\n')
}

// The line that editors jump to.
fn put_refusal(out: &mut [u8], a: Answer) -> usize
    requires { 4096 ≤ length out.old }
    ensures { result ≤ 384 }
{
    let second = put_refused(out, 0, a);
    let third = put_bytes(out, second, b": ");
    let fourth = put_sentence(out, third, a.number);
    put_byte(out, fourth, b'\n')
}

// What was found, where a reason has more to say.
fn put_reason(out: &mut [u8], at: usize, reason: &[u8], text: &[u8]) -> usize
    requires { (at + 1024 ≤ length out.old) × ((96 ≤ length reason.now) × (length text.now ≤ 32769)) }
    ensures { result ≤ at + 1024 }
{
    match get32(reason, 0) {
        RACE => put_race(out, at, reason, text),
        CHAIN => put_chain(out, at, reason, text),
        _ => at,
    }
}

pub fn put_report(out: &mut [u8], a: Answer, reason: &[u8], text: &[u8]) -> usize
    requires { (4096 ≤ length out.old) × ((96 ≤ length reason.now) × (length text.now ≤ 32769)) }
    ensures { result ≤ 4096 }
{
    if a.ending != Ending::Refused {
        return put_accepted(out, a);
    }
    let second = put_refusal(out, a);
    if a.number < FIRST_OF_TEXT {
        return second;
    }
    let third = put_excerpt(out, second, text, offset_in(text, a.place));
    put_reason(out, third, reason, text)
}
