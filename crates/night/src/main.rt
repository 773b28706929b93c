// night IMAGE BUDGET: runs the description on standard input from the carriers that the file IMAGE keeps, or from zero carriers where there is no such file,
// and keeps in it those that the run leaves, unless it faulted.
#![tactic(auto)]

mod budgets;
mod carriers;
mod files;

ghost use Rattle.std.specs.Prelude.{◌≤◌, length};
ghost use Rattle.rules.specs.Limits.{longest_text};

use crate::budgets::budget_in;
use crate::carriers::{finish, start};
use asking::{Work, carrier_bytes, check, run};
use lines::answers::{Answer, Ending};
use lines::bytes::put_byte;
use lines::said::put_said;
use rules::limits::LONGEST_TEXT;
use showing::{page, put_words};
use std::io;
use streams::arguments::argument;
use streams::read_full;

fn say_usage(rt: &HostRuntime) -> io::Result<()> {
    rt.write_all(b"usage: night IMAGE BUDGET < TEXT\n")
}

// A line that says how a run ended.
fn put_first(out: &mut [u8], a: Answer) -> usize
    requires { 256 ≤ length out.old }
    ensures { result ≤ 129 }
{
    let next = put_said(out, 0, a);
    put_byte(out, next, b'\n')
}

fn say(rt: &HostRuntime, a: Answer) -> io::Result<()> {
    let mut out = [0u8; 256];
    let end = put_first(&mut out, a);
    rt.write_all(&out[..end])
}

// The words that a run left.
fn say_words(rt: &HostRuntime, text: &[u8], carriers: &[u8], work: &mut Work) -> io::Result<()>
    requires text_len_bound { length text.now ≤ longest_text }
    requires in_bounds { 32768 ≤ length carriers.now }
{
    let mut out = page();
    let end = put_words(
        &mut out,
        0,
        text,
        carriers,
        &mut work.a,
        &mut work.b,
        &mut work.c,
    );
    rt.write_all(&out[..end])
}

// Runs a text from the carriers that it is given, says how that ended, and keeps what it left, unless it faulted.
fn run_started(
    rt: &HostRuntime,
    path: &[u8],
    budget: u32,
    text: &[u8],
    carriers: &mut [u8],
    work: &mut Work,
) -> io::Result<()>
    requires { (length path.now ≤ 4096) × (length carriers.old ≤ 32768) }
{
    let ended = run(
        text,
        carriers,
        budget,
        &mut work.a,
        &mut work.b,
        &mut work.c,
    );
    // what the run left is kept even where it cannot be said how it ended
    let said = say(rt, ended);
    if matches!(
        ended.ending,
        Ending::Done | Ending::Stopped | Ending::Paused
    ) {
        finish(rt, path, text, carriers, work)?;
    }
    said
}

// Runs a text from the carriers that the file keeps. Returns whether it could start.
fn run_kept(
    rt: &HostRuntime,
    path: &[u8],
    budget: u32,
    text: &[u8],
    carriers: &mut [u8],
    work: &mut Work,
) -> io::Result<bool>
    requires { (length path.now ≤ 4096) × (length carriers.old ≤ 32768) }
{
    if !start(rt, path, text, carriers, work)? {
        return Ok(false);
    }
    run_started(rt, path, budget, text, carriers, work)?;
    Ok(true)
}

// The same on the first `size` bytes of the carriers.
fn run_first(
    rt: &HostRuntime,
    path: &[u8],
    budget: u32,
    text: &[u8],
    carriers: &mut [u8],
    size: usize,
    work: &mut Work,
) -> io::Result<bool>
    requires { (length path.now ≤ 4096) × ((size ≤ 32768) × (32768 ≤ length carriers.old)) }
{
    run_kept(rt, path, budget, text, &mut carriers[..size], work)
}

// Runs an accepted text, and says which words it left.
fn run_accepted(
    rt: &HostRuntime,
    path: &[u8],
    budget: u32,
    text: &[u8],
    carriers: &mut [u8],
    size: usize,
    work: &mut Work,
) -> io::Result<()>
    requires text_len_bound { length text.now ≤ longest_text }
    requires path_len_bound { (length path.now ≤ 4096) × ((size ≤ 32768) × (32768 ≤ length carriers.old)) }
{
    if run_first(rt, path, budget, text, carriers, size, work)? {
        return say_words(rt, text, carriers, work);
    }
    Ok(())
}

// Runs a text that has been judged, unless it was refused.
fn run_judged(
    rt: &HostRuntime,
    path: &[u8],
    budget: u32,
    text: &[u8],
    carriers: &mut [u8],
    judged: Answer,
    work: &mut Work,
) -> io::Result<()>
    requires text_len_bound { length text.now ≤ longest_text }
    requires path_len_bound { (length path.now ≤ 4096) × (32768 ≤ length carriers.old) }
{
    if judged.ending == Ending::Refused {
        return say(rt, judged);
    }
    let size = carrier_bytes(judged.words);
    run_accepted(rt, path, budget, text, carriers, size, work)
}

fn go_on(
    rt: &HostRuntime,
    path: &[u8],
    budget: u32,
    text: &[u8],
    carriers: &mut [u8],
    work: &mut Work,
) -> io::Result<()>
    requires text_len_bound { length text.now ≤ longest_text }
    requires path_len_bound { (length path.now ≤ 4096) × (32768 ≤ length carriers.old) }
{
    let judged = check(text, &mut work.a, &mut work.b, &mut work.c);
    run_judged(rt, path, budget, text, carriers, judged, work)
}

fn with_memory(rt: &HostRuntime, path: &[u8], budget: u32, text: &[u8]) -> io::Result<()>
    requires { (length path.now ≤ 4096) × (length text.now ≤ longest_text) }
{
    let mut carriers = [0u8; 32768];
    let mut work = Work {
        a: [0; 65536],
        b: [0; 65536],
        c: [0; 65536],
    };
    go_on(rt, path, budget, text, &mut carriers, &mut work)
}

fn read_text(rt: &HostRuntime, path: &[u8], budget: u32) -> io::Result<()>
    requires { length path.now ≤ 4096 }
{
    let mut text = [0u8; 32769];
    let n = read_full(&mut rt.stdin(), &mut text)?;
    if LONGEST_TEXT < n {
        return rt.write_all(b"1:1: refused 2\n");
    }
    with_memory(rt, path, budget, &text[..n])
}

// The second argument.
fn budget_given(rt: &HostRuntime) -> Option<u32> {
    let mut word = [0u8; 16];
    let n = argument(rt, 2, &mut word)?;
    budget_in(&word[..n])
}

// Runs the text with the budget that is given, from the image at this path.
fn run_at(rt: &HostRuntime, path: &[u8]) -> io::Result<()>
    requires { length path.now ≤ 4096 }
{
    match budget_given(rt) {
        Some(budget) => read_text(rt, path, budget),
        None => say_usage(rt),
    }
}

fn main(rt: HostRuntime) -> io::Result<()> {
    let mut path = [0u8; 4096];
    match argument(&rt, 1, &mut path) {
        Some(n) => run_at(&rt, &path[..n]),
        None => say_usage(&rt),
    }
}
