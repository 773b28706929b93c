// Where control goes behind a step, by the stack of return addresses.
ghost use Rattle.std.specs.Prelude.{◌≡◌, ◌≤◌, Ok};
ghost use Rattle.rules.specs.Limits.{longest_chain};
ghost use Rattle.laws_orders.specs.Cited.Flat.{return};
ghost use Rattle.runner.specs.Runs.{stack_of};
ghost use Rattle.runner.specs.Turns.{turned_to, Room, Turns};

use rules::limits::LONGEST_CHAIN;
use stepping::steps::Moved;

// Where control is behind a step: at an instruction, with so many on the stack; all has ended; or at a STOP.
#[derive(Clone, Copy)]
pub enum Turned {
    At(usize, usize),
    Over,
    Stop,
}

// Out of a body: control is at the newest return address, or all has ended.
fn back(stack: &[usize; LONGEST_CHAIN], depth: usize) -> Turned
    requires { depth ≤ longest_chain }
    ensures { turned_to (Ok result) stack.now ≡ return (stack_of stack.now depth) }
{
    if depth == 0 {
        return Turned::Over;
    }
    let top = depth - 1;
    Turned::At(stack[top], top)
}

// Where control goes behind a step. An activation that is the last thing in its body leaves no return address.
pub fn onward(stack: &mut [usize; LONGEST_CHAIN], depth: usize, moved: Moved) -> Turned
    requires { Room stack.old (Ok moved) depth }
    ensures { Turns stack.old (Ok moved) depth stack.new (Ok result) }
{
    match moved {
        Moved::Stop => Turned::Stop,
        Moved::Call(first, behind) => {
            if behind == 0 {
                return Turned::At(first, depth);
            }
            stack[depth] = behind;
            Turned::At(first, depth + 1)
        }
        Moved::Go(next) => {
            if next != 0 {
                return Turned::At(next, depth);
            }
            back(stack, depth)
        }
    }
}
