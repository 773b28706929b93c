// A refusal as people read it.
ghost use Rattle.std.specs.Prelude.{◌+◌, ◌≤◌, length};
ghost use Rattle.lines.specs.Appended.{Appended};
ghost use Rattle.lines.specs.Endings.{refused_bytes};

use crate::answers::Answer;
use crate::digits::put_decimal;
use crate::endings::put_labelled;

// Where, and which: editors jump to a line that begins so.
pub fn put_refused(out: &mut [u8], at: usize, a: Answer) -> usize
    requires { at + 72 ≤ length out.old }
    ensures { Appended out.old out.new at result (refused_bytes a.line a.column a.number) × (result ≤ at + 72) }
{
    let second = put_decimal(out, at, a.line);
    let third = put_labelled(out, second, b":", a.column);
    put_labelled(out, third, b": refused ", a.number)
}
