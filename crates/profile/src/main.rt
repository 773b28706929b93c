// Judges the description on standard input by the resume profile: `profile TEST OUTPUT`, with the names of the test and of the output.

#![tactic(auto)]

ghost use Rattle.std.specs.Prelude.{◌+◌, ◌≤◌, length};
ghost use Rattle.lines.specs.Appended.{Appended};
ghost use Rattle.profile.specs.Report.{reason_bytes, report_bytes};

use lines::answers::{Answer, Ending, answer_of};
use lines::bytes::put_bytes;
use lines::refusals::put_refused;
use std::io;
use streams::arguments::{are_two, argument};
use streams::read_full;

// What the call answers.
fn profile(
    text: &[u8],
    test: &[u8],
    output: &[u8],
    a: &mut [u8],
    b: &mut [u8],
    c: &mut [u8],
) -> Answer {
    let mut answer = [0u8; 32];
    let number = resuming::profile(text, test, output, a, b, c, &mut answer);
    answer_of(number, &answer)
}

// Why the profile is refused, behind the refusal.
fn put_reason(out: &mut [u8], at: usize, number: u64) -> usize
    requires { at + 128 ≤ length out.old }
    ensures { Appended out.old out.new at result (reason_bytes number) × (result ≤ at + 128) }
{
    match number {
        90 => put_bytes(out, at, b": the test is not the name of a body\n"),
        91 => put_bytes(
            out,
            at,
            b": the output is not the name of a storage carrier\n",
        ),
        92 => put_bytes(
            out,
            at,
            b": a path writes the output here before one activation of the test has ended\n",
        ),
        _ => put_bytes(out, at, b": the text is not accepted\n"),
    }
}

// One line for an answer.
fn put_report(out: &mut [u8], a: Answer) -> usize
    requires { 256 ≤ length out.old }
    ensures { Appended out.old out.new 0 result (report_bytes a.ending a.number a.line a.column) × (result ≤ 256) }
{
    match a.ending {
        Ending::Done => put_bytes(out, 0, b"passes\n"),
        _ => {
            let next = put_refused(out, 0, a);
            put_reason(out, next, a.number)
        }
    }
}

fn main(rt: HostRuntime) -> io::Result<()> {
    let mut text = [0u8; 32769];
    let mut test = [0u8; 4096];
    let mut output = [0u8; 4096];
    let mut out = [0u8; 256];
    let mut a = [0u8; 65536];
    let mut b = [0u8; 65536];
    let mut c = [0u8; 65536];
    if !are_two(&rt) {
        return rt
            .stderr()
            .write_all(b"usage: profile TEST OUTPUT < DESCRIPTION\n");
    }
    // what is longer than any name is none, as the empty name is
    let first = argument(&rt, 1, &mut test).unwrap_or(0);
    let second = argument(&rt, 2, &mut output).unwrap_or(0);
    let n = read_full(&mut rt.stdin(), &mut text)?;
    let found = profile(
        &text[..n],
        &test[..first],
        &output[..second],
        &mut a,
        &mut b,
        &mut c,
    );
    let end = put_report(&mut out, found);
    rt.write_all(&out[..end])
}
