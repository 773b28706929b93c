// How a run ended, as people read it.
ghost use Rattle.std.specs.Prelude.{◌+◌, ◌≤◌, length};
ghost use Rattle.lines.specs.Appended.{Appended};
ghost use Rattle.lines.specs.Said.{steps_bytes, place_bytes, fault_bytes, said_bytes};

use crate::answers::{Answer, Ending};
use crate::bytes::put_bytes;
use crate::digits::put_decimal;
use crate::endings::put_labelled;
use crate::refusals::put_refused;

// So many steps, behind how they ended.
fn put_steps(out: &mut [u8], at: usize, how: &[u8], steps: u64) -> usize
    requires { at + length how.now + 26 ≤ length out.old }
    ensures { Appended out.old out.new at result (steps_bytes how.now steps) × (result ≤ at + length how.now + 26) }
{
    let next = put_labelled(out, at, how, steps);
    put_bytes(out, next, b" steps")
}

// Where: editors jump to a line that begins so.
pub fn put_place(out: &mut [u8], at: usize, line: u64, column: u64) -> usize
    requires { at + 41 ≤ length out.old }
    ensures { Appended out.old out.new at result (place_bytes line column) × (result ≤ at + 41) }
{
    let next = put_decimal(out, at, line);
    put_labelled(out, next, b":", column)
}

fn put_fault(out: &mut [u8], at: usize, a: Answer) -> usize
    requires { at + 128 ≤ length out.old }
    ensures { Appended out.old out.new at result (fault_bytes a.line a.column a.number a.steps) × (result ≤ at + 128) }
{
    let second = put_place(out, at, a.line, a.column);
    let third = put_labelled(out, second, b": fault ", a.number);
    put_steps(out, third, b" after ", a.steps)
}

pub fn put_said(out: &mut [u8], at: usize, a: Answer) -> usize
    requires { at + 128 ≤ length out.old }
    ensures { Appended out.old out.new at result (said_bytes a.ending a.line a.column a.number a.steps) × (result ≤ at + 128) }
{
    match a.ending {
        Ending::Done => put_steps(out, at, b"done after ", a.steps),
        Ending::Stopped => put_steps(out, at, b"stopped after ", a.steps),
        Ending::Paused => put_steps(out, at, b"paused after ", a.steps),
        Ending::Fault => put_fault(out, at, a),
        _ => put_refused(out, at, a),
    }
}
