// Writes how many steps a run of the description on standard input can take at most, from any carriers.
#![tactic(auto)]

ghost use Rattle.std.specs.Prelude.{◌≤◌, length};

use lines::answers::{Answer, Ending, answer_of};
use lines::bytes::{put_byte, put_bytes};
use lines::endings::put_labelled;
use lines::refusals::put_refused;
use std::io;
use streams::read_full;

// What the call answers.
fn bound(text: &[u8], a: &mut [u8], b: &mut [u8], c: &mut [u8]) -> Answer {
    let mut answer = [0u8; 32];
    let number = lasting::bound(text, a, b, c, &mut answer);
    answer_of(number, &answer)
}

fn put_answer(out: &mut [u8], a: Answer) -> usize
    requires { 128 ≤ length out.old }
    ensures { result ≤ 72 }
{
    match a.ending {
        Ending::Refused => put_refused(out, 0, a),
        Ending::Unbounded => put_bytes(out, 0, b"no bound"),
        _ => put_labelled(out, 0, b"bound ", a.steps),
    }
}

// The line of an answer.
fn put_line(out: &mut [u8], a: Answer) -> usize
    requires { 128 ≤ length out.old }
    ensures { result ≤ length out.new }
{
    let next = put_answer(out, a);
    put_byte(out, next, b'\n')
}

fn main(rt: HostRuntime) -> io::Result<()> {
    let mut text = [0u8; 32769];
    let mut out = [0u8; 128];
    let mut a = [0u8; 65536];
    let mut b = [0u8; 65536];
    let mut c = [0u8; 65536];
    let n = read_full(&mut rt.stdin(), &mut text)?;
    let answer = bound(&text[..n], &mut a, &mut b, &mut c);
    let end = put_line(&mut out, answer);
    rt.write_all(&out[..end])
}
