// Which tokens count.
ghost use Rattle.std.specs.Prelude.{◌≡◌};
ghost use Rattle.counting.specs.Machine.{takes_step, turns};

use rules::kinds::{DECODE, EQUALS, IF, LEAVE, NO_OP, REPEAT, RESTART, STOP};

// One for each action that takes a step, but for activations and what turns. An arm for each kind: the proof cites each.
pub fn takes_step(kind: u8) -> bool
    ensures { result ≡ takes_step kind }
{
    match kind {
        EQUALS => true,
        IF => true,
        DECODE => true,
        LEAVE => true,
        STOP => true,
        NO_OP => true,
        _ => false,
    }
}

pub fn turns(kind: u8) -> bool
    ensures { result ≡ turns kind }
{
    match kind {
        REPEAT => true,
        RESTART => true,
        _ => false,
    }
}
