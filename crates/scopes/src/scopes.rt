// The scopes around a token: the labels of the innermost member, and for each open block those around it.
ghost use Rattle.std.specs.Prelude.{◌≡◌, ◌-◌, ◌<◌, ◌≤◌, length};
ghost use Rattle.rules.specs.Limits.{most_tokens};
ghost use Rattle.room.specs.Whole.{labels_size};
ghost use Rattle.scopes.specs.Frames.{FramePushed, Surrounding, Opened, Followed, Turning, Turned, Fresh};

use crate::labels::push_label;
use cells::{get16, put16};
use room::whole::{FIRST_SCOPE, SCOPES_END};
use rules::kinds::{BECOMES, BEGIN, COMMA, END, NEXT, SEMI};

// How many blocks are open, and where the labels of the scope begin and end; where they end before they begin there is no scope.
#[derive(Clone, Copy)]
pub struct Nest {
    pub depth: usize,
    pub base: usize,
    pub top: usize,
}

// Keeps the scope around a block that is opened with depth others around it.
fn push_frame(labels: &mut [u8], depth: usize, base: usize, top: usize)
    requires { (labels_size ≤ length labels.old) × ((depth < most_tokens) × ((base < 65536) × (top < 65536))) }
    ensures { FramePushed labels.old labels.new depth base top }
{
    let at = FIRST_SCOPE - 2 * depth;
    put16(labels, at, base as u16);
    put16(labels, at + 1, top as u16);
}

// Behind a BEGIN.
fn opened(labels: &mut [u8], several: bool, depth: usize, base: usize, top: usize) -> Nest
    requires { (labels_size ≤ length labels.old) × ((depth < most_tokens) × ((base < 65536) × (top < 65536))) }
    ensures { Opened several labels.old labels.new depth base top result.depth result.base result.top }
{
    push_frame(labels, depth, base, top);
    if several {
        return Nest {
            depth: depth + 1,
            base: top,
            top,
        };
    }
    Nest {
        depth: depth + 1,
        base,
        top,
    }
}

// The scope around the innermost open block.
fn surrounding(labels: &[u8], depth: usize, top: usize) -> Nest
    requires { (labels_size ≤ length labels.now) × ((depth < most_tokens) × (top < 65536)) }
    ensures { (result.depth ≡ depth) × Surrounding labels.now depth top result.base result.top }
{
    if depth == 0 {
        return Nest {
            depth,
            base: top + 1,
            top,
        };
    }
    let at = SCOPES_END - 2 * depth;
    Nest {
        depth,
        base: get16(labels, at) as usize,
        top: get16(labels, at + 1) as usize,
    }
}

// A scope without labels.
fn fresh(depth: usize, top: usize) -> Nest
    ensures { Fresh depth top result.depth result.base result.top }
{
    Nest {
        depth,
        base: top,
        top,
    }
}

// Behind an END.
fn closed(labels: &[u8], depth: usize, top: usize) -> Nest
    requires { (labels_size ≤ length labels.now) × ((0 < depth) × ((depth < most_tokens) × (top < 65536))) }
    ensures { (result.depth ≡ depth - 1) × Surrounding labels.now depth top result.base result.top }
{
    let around = surrounding(labels, depth, top);
    Nest {
        depth: depth - 1,
        base: around.base,
        top: around.top,
    }
}

// Behind a NEXT.
fn next_group(labels: &[u8], several: bool, depth: usize, top: usize) -> Nest
    requires { (labels_size ≤ length labels.now) × ((depth < most_tokens) × (top < 65536)) }
    ensures { Followed several labels.now depth top result.depth result.base result.top }
{
    if several {
        return fresh(depth, top);
    }
    surrounding(labels, depth, top)
}

// Behind the token i, whose kind this is. Where a group begins behind it, `several` tells whether it has two members or more.
pub fn turn(
    text: &[u8],
    records: &[u8],
    labels: &mut [u8],
    n: usize,
    i: usize,
    kind: u8,
    several: bool,
    depth: usize,
    base: usize,
    top: usize,
) -> Nest
    requires { Turning text.now records.now labels.old n i kind several depth base top }
    ensures { Turned text.now records.now labels.old labels.new n i depth base top result.depth result.base result.top }
{
    if kind == BEGIN {
        return opened(labels, several, depth, base, top);
    }
    if kind == END {
        return closed(labels, depth, top);
    }
    if kind == SEMI {
        return fresh(depth, top);
    }
    if kind == NEXT {
        return next_group(labels, several, depth, top);
    }
    if kind == COMMA {
        return surrounding(labels, depth, top);
    }
    if kind == BECOMES {
        let above = push_label(text, records, labels, n, i, base, top);
        return Nest {
            depth,
            base,
            top: above,
        };
    }
    Nest { depth, base, top }
}
