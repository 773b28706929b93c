// How a run ended.
ghost use Rattle.std.specs.Prelude.{◌++◌, ◌+◌, ◌≤◌, length};
ghost use Rattle.rules.specs.Text.Bytes.{bytes};
ghost use Rattle.lines.specs.Appended.{Appended};
ghost use Rattle.lines.specs.Endings.{labelled, ending_bytes};

use crate::answers::{Answer, Ending};
use crate::bytes::put_bytes;
use crate::digits::put_decimal;

// A number behind a label.
pub fn put_labelled(out: &mut [u8], at: usize, label: &[u8], n: u64) -> usize
    requires { at + length label.now + 20 ≤ length out.old }
    ensures { Appended out.old out.new at result (labelled label.now n) × (result ≤ at + length label.now + 20) }
{
    let next = put_bytes(out, at, label);
    put_decimal(out, next, n)
}

fn put_refusal(out: &mut [u8], at: usize, number: u64, place: u64) -> usize
    requires { at + 72 ≤ length out.old }
    ensures { Appended out.old out.new at result (labelled (bytes "refused ") number ++ labelled (bytes " ") place) × (result ≤ at + 72) }
{
    let next = put_labelled(out, at, b"refused ", number);
    put_labelled(out, next, b" ", place)
}

fn put_fault(out: &mut [u8], at: usize, number: u64, place: u64, steps: u64) -> usize
    requires { at + 72 ≤ length out.old }
    ensures { Appended out.old out.new at result
        (labelled (bytes "fault ") number ++ (labelled (bytes " ") place ++ labelled (bytes " ") steps)) × (result ≤ at + 72) }
{
    let second = put_labelled(out, at, b"fault ", number);
    let third = put_labelled(out, second, b" ", place);
    put_labelled(out, third, b" ", steps)
}

pub fn put_ending(out: &mut [u8], at: usize, a: Answer) -> usize
    requires { at + 72 ≤ length out.old }
    ensures { Appended out.old out.new at result (ending_bytes a.ending a.number a.place a.steps) × (result ≤ at + 72) }
{
    match a.ending {
        Ending::Done => put_labelled(out, at, b"done ", a.steps),
        Ending::Stopped => put_labelled(out, at, b"stopped ", a.steps),
        Ending::Paused => put_labelled(out, at, b"paused ", a.steps),
        Ending::Fault => put_fault(out, at, a.number, a.place, a.steps),
        _ => put_refusal(out, at, a.number, a.place),
    }
}
