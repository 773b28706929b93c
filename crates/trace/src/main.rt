// trace FILE: says whether the stores that FILE lists are what some allowed order of the description on standard input makes, from zero carriers.
#![tactic(auto)]

mod naming;
mod saying;

ghost use Rattle.std.specs.Prelude.{◌≤◌, length};
ghost use Rattle.rules.specs.Limits.{longest_text};

use crate::saying::{Saying, say, say_answer};
use asking::{Work, carrier_bytes, check};
use lines::answers::{Answer, answer_of};
use lists::files::{Unreadable, list_in};
use rules::limits::LONGEST_TEXT;
use std::fs::File;
use std::io;
use streams::arguments::{argument, is_one};
use streams::files::{open, say_failed};
use streams::read_full;

const BUDGET: u32 = 1000000;

// Of a list, in bytes.
const LONGEST_FILE: usize = 262144;

// What the call answers.
fn trace(entries: &[u8], text: &[u8], carriers: &[u8], work: &mut Work, d: &mut [u8]) -> Answer {
    let mut answer = [0u8; 32];
    let number = comparing::trace(
        text,
        carriers,
        BUDGET,
        entries,
        &mut work.a,
        &mut work.b,
        &mut work.c,
        d,
        &mut answer,
    );
    answer_of(number, &answer)
}

// Compares the list with the runs of a text from as many zero carriers as it asks for.
fn compared(
    entries: &[u8],
    text: &[u8],
    carriers: &[u8],
    size: usize,
    work: &mut Work,
    d: &mut [u8],
) -> Answer
    requires { (size ≤ 32768) × (32768 ≤ length carriers.now) }
{
    trace(entries, text, &carriers[..size], work, d)
}

// The same for a text that has been judged, and says how that came out.
fn compare_judged(
    rt: &HostRuntime,
    entries: &[u8],
    text: &[u8],
    size: usize,
    work: &mut Work,
    d: &mut [u8],
) -> io::Result<()>
    requires { (length text.now ≤ longest_text) × (size ≤ 32768) }
{
    let carriers = [0u8; 32768];
    let answer = compared(entries, text, &carriers, size, work, d);
    say_answer(rt, answer, entries, text, size)
}

// Judges the text for the number of its words, and compares.
fn compare(
    rt: &HostRuntime,
    entries: &[u8],
    text: &[u8],
    work: &mut Work,
    d: &mut [u8],
) -> io::Result<()>
    requires { length text.now ≤ longest_text }
{
    let judged = check(text, &mut work.a, &mut work.b, &mut work.c);
    let size = carrier_bytes(judged.words);
    compare_judged(rt, entries, text, size, work, d)
}

fn with_memory(rt: &HostRuntime, entries: &[u8], text: &[u8]) -> io::Result<()>
    requires { length text.now ≤ longest_text }
{
    let mut work = Work {
        a: [0; 65536],
        b: [0; 65536],
        c: [0; 65536],
    };
    let mut d = [0u8; 65536];
    compare(rt, entries, text, &mut work, &mut d)
}

fn read_text(rt: &HostRuntime, entries: &[u8]) -> io::Result<()> {
    let mut text = [0u8; 32769];
    let n = read_full(&mut rt.stdin(), &mut text)?;
    if LONGEST_TEXT < n {
        return rt.write_all(b"1:1: refused 2\n");
    }
    with_memory(rt, entries, &text[..n])
}

fn take_list(rt: &HostRuntime, file: &[u8]) -> io::Result<()>
    requires { length file.now ≤ 262144 }
{
    let mut entries = [0u8; 65552];
    match list_in(file, &mut entries) {
        Ok(count) => read_text(rt, &entries[..16 * count]),
        Err(Unreadable { line }) => say(rt, Saying::BadLine { line }),
    }
}

fn read_opened(rt: &HostRuntime, opened: File) -> io::Result<()> {
    let mut list = opened;
    let mut file = [0u8; 262145];
    let n = read_full(&mut list, &mut file)?;
    drop(list);
    if LONGEST_FILE < n {
        return rt.write_all(b"the list has more than 262,144 bytes\n");
    }
    take_list(rt, &file[..n])
}

fn read_list(rt: &HostRuntime, path: &[u8]) -> io::Result<()> {
    match open(rt, path) {
        Ok(opened) => read_opened(rt, opened),
        Err(error) => say_failed(rt, path, error),
    }
}

fn main(rt: HostRuntime) -> io::Result<()> {
    let mut path = [0u8; 4096];
    if !is_one(&rt) {
        return rt.write_all(b"usage: trace FILE < TEXT\n");
    }
    // one that is longer than any path is no file
    let n = argument(&rt, 1, &mut path).unwrap_or(0);
    read_list(&rt, &path[..n])
}
