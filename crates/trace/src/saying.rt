// What the program writes.
ghost use Rattle.std.specs.Prelude.{◌+◌, ◌*◌, ◌≤◌, length};
ghost use Rattle.rules.specs.Limits.{longest_text};

use crate::naming::{line_of, put_named};
use asking::Work;
use lines::answers::{Answer, Ending};
use listed::entries::{Entry, count, entry_at};
use positions::walked;
use reports::{
    put_bad, put_behind, put_no_place, put_no_word, put_refusal, put_short, put_unended,
    put_unreadable, put_yes,
};
use showing::page;
use std::io;

// What there is to say, each in its own words.
#[derive(Clone, Copy)]
pub enum Saying {
    BadLine {
        line: u64,
    },
    Refusal(Answer),
    Unended(Answer),
    Yes(Answer),
    Short {
        entries: u64,
    },
    NoPlace {
        entry: u64,
        place: u64,
    },
    NoWord {
        line: u64,
        column: u64,
        entry: u64,
        word: u64,
    },
    Bad {
        line: u64,
        column: u64,
        entry: u64,
    },
    Behind,
}

// Returns the length of it.
fn put(out: &mut [u8], s: Saying) -> usize
    requires { 512 ≤ length out.old }
    ensures { result ≤ 512 }
{
    match s {
        Saying::BadLine { line } => put_unreadable(out, line),
        Saying::Refusal(answer) => put_refusal(out, answer),
        Saying::Unended(answer) => put_unended(out, answer),
        Saying::Yes(answer) => put_yes(out, answer),
        Saying::Short { entries } => put_short(out, entries),
        Saying::NoPlace { entry, place } => put_no_place(out, entry, place),
        Saying::NoWord {
            line,
            column,
            entry,
            word,
        } => put_no_word(out, line, column, entry, word),
        Saying::Bad {
            line,
            column,
            entry,
        } => put_bad(out, line, column, entry),
        Saying::Behind => put_behind(out),
    }
}

pub fn say(rt: &HostRuntime, s: Saying) -> io::Result<()> {
    let mut out = [0u8; 512];
    let end = put(&mut out, s);
    rt.write_all(&out[..end])
}

// The word that an entry names, with its value.
fn say_word(
    rt: &HostRuntime,
    text: &[u8],
    carriers: &mut [u8],
    word: usize,
    value: u64,
    work: &mut Work,
) -> io::Result<()>
    requires text_len_bound { length text.now ≤ longest_text }
    requires in_bounds { (32768 ≤ length carriers.old) × (8 * word + 8 ≤ length carriers.old) }
{
    let mut out = page();
    let end = put_named(&mut out, text, carriers, word, value, work);
    rt.write_all(line_of(&out[..end], word))
}

// The same, with memory of its own.
fn say_named(rt: &HostRuntime, text: &[u8], word: usize, value: u64) -> io::Result<()>
    requires { (length text.now ≤ longest_text) × (8 * word + 8 ≤ 32768) }
{
    let mut carriers = [0u8; 32768];
    let mut work = Work {
        a: [0; 65536],
        b: [0; 65536],
        c: [0; 65536],
    };
    say_word(rt, text, &mut carriers, word, value, &mut work)
}

// The entry n, which cannot be, of a description whose carriers have so many bytes.
fn say_entry(rt: &HostRuntime, e: Entry, n: u64, text: &[u8], size: usize) -> io::Result<()>
    requires { (length text.now ≤ longest_text) × (size ≤ 32768) }
{
    let place = e.place as usize;
    let word = e.word as usize;
    if text.len() < place {
        return say(
            rt,
            Saying::NoPlace {
                entry: n,
                place: u64::from(e.place),
            },
        );
    }
    let at = walked(text, place);
    let line = u64::from(at.line);
    let column = u64::from(at.column);
    if size < 8 * word + 8 {
        return say(
            rt,
            Saying::NoWord {
                line,
                column,
                entry: n,
                word: u64::from(e.word),
            },
        );
    }
    say(
        rt,
        Saying::Bad {
            line,
            column,
            entry: n,
        },
    )?;
    say_named(rt, text, word, e.value)?;
    say(rt, Saying::Behind)
}

// Why a list is not so: by the number of an entry, or of all.
fn say_no(
    rt: &HostRuntime,
    number: usize,
    entries: &[u8],
    text: &[u8],
    size: usize,
) -> io::Result<()>
    requires { (length text.now ≤ longest_text) × (size ≤ 32768) }
{
    if count(entries) <= number {
        return say(
            rt,
            Saying::Short {
                entries: number as u64,
            },
        );
    }
    let entry = entry_at(entries, number);
    say_entry(rt, entry, number as u64, text, size)
}

// What is said of an answer: the fourth and fifth number of it are whether the list is so, and the first entry that cannot be.
pub fn say_answer(
    rt: &HostRuntime,
    answer: Answer,
    entries: &[u8],
    text: &[u8],
    size: usize,
) -> io::Result<()>
    requires { (length text.now ≤ longest_text) × (size ≤ 32768) }
{
    match answer.ending {
        Ending::Refused => say(rt, Saying::Refusal(answer)),
        Ending::Done | Ending::Stopped if answer.declarations == 1 => say(rt, Saying::Yes(answer)),
        Ending::Done | Ending::Stopped => say_no(rt, answer.words as usize, entries, text, size),
        _ => say(rt, Saying::Unended(answer)),
    }
}
