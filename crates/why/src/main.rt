// Says why the description on standard input is refused, or that it is accepted.
#![tactic(auto)]

mod activations;
mod races;
mod reports;

ghost use Rattle.std.specs.Prelude.{◌≤◌, length};

use crate::reports::put_report;
use lines::answers::{Answer, answer_of};
use std::io;
use streams::read_full;

// What the call answers. The reason is left in its own buffer, as the 24 numbers that the call writes.
fn why(text: &[u8], a: &mut [u8], b: &mut [u8], c: &mut [u8], reason: &mut [u8]) -> Answer {
    let mut answer = [0u8; 32];
    let number = reporting::why(text, a, b, c, reason, &mut answer);
    answer_of(number, &answer)
}

// What is said of a text, in this work memory.
fn explain(out: &mut [u8], text: &[u8], a: &mut [u8], b: &mut [u8], c: &mut [u8]) -> usize
    requires { (4096 ≤ length out.old) × (length text.now ≤ 32769) }
    ensures { result ≤ length out.new }
{
    let mut reason = [0u8; 96];
    let answer = why(text, a, b, c, &mut reason);
    put_report(out, answer, &reason, text)
}

fn main(rt: HostRuntime) -> io::Result<()> {
    let mut text = [0u8; 32769];
    let mut out = [0u8; 4096];
    let mut a = [0u8; 65536];
    let mut b = [0u8; 65536];
    let mut c = [0u8; 65536];
    let n = read_full(&mut rt.stdin(), &mut text)?;
    let end = explain(&mut out, &text[..n], &mut a, &mut b, &mut c);
    rt.write_all(&out[..end])
}
