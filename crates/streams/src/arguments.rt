// The arguments of a program, as bytes. They are counted from 1, behind the program's name.
ghost use Rattle.std.specs.Prelude.{◌≤◌, IfSome, length};

use std::env::FillError;
use std::rt::Env;

// Puts an argument at the start of a buffer. Returns its length, unless there is none or it is longer than the buffer.
pub fn argument(rt: &impl Env, number: usize, buf: &mut [u8]) -> Option<usize>
    ensures { IfSome result (λ n. n ≤ length buf.new) }
{
    rt.arg(number, buf).ok()
}

// Whether there is an argument of this number.
fn is_given(rt: &impl Env, number: usize) -> bool {
    let mut start = [0u8; 1];
    !matches!(rt.arg(number, &mut start), Err(FillError::NotPresent))
}

// Whether there are just two arguments.
pub fn are_two(rt: &impl Env) -> bool {
    is_given(rt, 2) && !is_given(rt, 3)
}

// Whether there is just one argument.
pub fn is_one(rt: &impl Env) -> bool {
    is_given(rt, 1) && !is_given(rt, 2)
}
