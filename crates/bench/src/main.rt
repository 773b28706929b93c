// Runs the description on standard input from zero carriers, and writes how the run ended and the words that it left.

#![tactic(auto)]

ghost use Rattle.std.specs.Prelude.{◌≤◌, length};
ghost use Rattle.rules.specs.Limits.{longest_text};

use asking::{Work, carrier_bytes, check, run};
use lines::answers::Answer;
use rules::limits::LONGEST_TEXT;
use showing::{page, put_report};
use std::io;
use streams::read_full;

const BUDGET: u32 = 1000000;

// The run of a text, from as many zero carriers as it asks for.
fn run_text(text: &[u8], carriers: &mut [u8], work: &mut Work) -> Answer
    requires { 32768 ≤ length carriers.old }
{
    let accepted = check(text, &mut work.a, &mut work.b, &mut work.c);
    let size = carrier_bytes(accepted.words);
    run(
        text,
        &mut carriers[..size],
        BUDGET,
        &mut work.a,
        &mut work.b,
        &mut work.c,
    )
}

// The run and its report.
fn answer(out: &mut [u8], text: &[u8], carriers: &mut [u8], work: &mut Work) -> usize
    requires text_len_bound { length text.now ≤ longest_text }
    requires in_bounds { (524544 ≤ length out.old) × (32768 ≤ length carriers.old) }
    ensures { result ≤ length out.new }
{
    let ended = run_text(text, carriers, work);
    put_report(
        out,
        ended,
        text,
        carriers,
        &mut work.a,
        &mut work.b,
        &mut work.c,
    )
}

fn main(rt: HostRuntime) -> io::Result<()> {
    let mut text = [0u8; 32769];
    let mut carriers = [0u8; 32768];
    let mut out = page();
    let mut work = Work {
        a: [0; 65536],
        b: [0; 65536],
        c: [0; 65536],
    };
    let n = read_full(&mut rt.stdin(), &mut text)?;
    if LONGEST_TEXT < n {
        return rt.write_all(b"refused 2 0\n");
    }
    let end = answer(&mut out, &text[..n], &mut carriers, &mut work);
    rt.write_all(&out[..end])
}
