// What is known of the bodies, round by round: each round goes one body further down the chains of activations.
ghost use Rattle.std.specs.Prelude.{◌<◌, ◌≤◌, length};
ghost use Rattle.reading.specs.Reading.{Kinded};
ghost use Rattle.profiling.specs.Levels.{BeginBehind, Levelled, Put, PartAt, Part, Blank, Rounded, Starting, Known16};

use crate::tasks::Task;
use crate::walks::walk;
use cells::{get16, put16};
use reading::bodies::body_at;
use reading::names::UNDECLARED;
use records::fields::kind_at;
use rules::kinds::BEGIN;
use rules::limits::LONGEST_CHAIN;

// No place.
pub const UNSEEN: usize = 65535;

// What is known of the declaration k: whether its end is reached, and the lowest place.
fn put_known(table: &mut [u8], k: usize, ends: bool, low: usize)
    requires { (1028 ≤ length table.old) × (k ≤ 256) × (low < 65536) }
    ensures { Put table.old table.new k ends low }
{
    let at = 2 * k;
    // Both cases are written out: the proof cites each.
    if ends {
        put16(table, at, 1);
        put16(table, at + 1, low as u16);
        return;
    }
    put16(table, at, 0);
    put16(table, at + 1, low as u16);
}

// Nothing is reached.
fn blank(table: &mut [u8])
    requires { 1028 ≤ length table.old }
    ensures { Blank table.old table.new 257 }
{
    for k in 0..=UNDECLARED {
        put_known(table, k, false, UNSEEN);
    }
}

// The first BEGIN behind the name of a declaration: that of its body, if it has one.
fn begin_behind(records: &[u8], n: usize, name: usize) -> usize
    requires { Kinded records.now n × (name < n) }
    ensures { BeginBehind records.now n name result }
{
    for i in name + 1..n {
        if kind_at(records, i) == BEGIN {
            return i;
        }
    }
    n
}

// The declaration k, by the table of the round before.
fn declaration(
    records: &[u8],
    decls: &[u8],
    table: &[u8],
    next: &mut [u8],
    room: &mut [u8],
    t: Task,
    k: usize,
)
    requires { PartAt records.now decls.now table.now next.old room.old t k }
    ensures { Part records.now decls.now table.now next.old next.new t k }
{
    if body_at(records, decls, t.m, t.n, k).is_none() {
        put_known(next, k, true, UNSEEN);
        return;
    }
    let name = get16(decls, k) as usize;
    let start = begin_behind(records, t.n, name);
    let f = walk(records, decls, table, room, t, name, start);
    put_known(next, k, f.ends, f.low);
}

// One round.
fn round(records: &[u8], decls: &[u8], table: &[u8], next: &mut [u8], room: &mut [u8], t: Task)
    requires { Levelled records.now decls.now table.now next.old room.old t }
    ensures { Rounded records.now decls.now table.now next.new t }
{
    for k in 0..t.m {
        declaration(records, decls, table, next, room, t, k);
    }
    put_known(next, UNDECLARED, true, UNSEEN);
}

// All rounds. The first table has at last what is known down the longest chains.
pub fn rounds(
    records: &[u8],
    decls: &[u8],
    table: &mut [u8],
    next: &mut [u8],
    room: &mut [u8],
    t: Task,
)
    requires { Starting records.now decls.now table.old next.old room.old t }
    ensures { Known16 records.now decls.now table.new t }
{
    blank(table);
    for _k in 0..LONGEST_CHAIN / 2 {
        round(records, decls, table, next, room, t);
        round(records, decls, next, table, room, t);
    }
}
