// What a token does to one who passes over an action.
ghost use Rattle.std.specs.Prelude.{◌<◌};
ghost use Rattle.gathering.specs.Steps.{Stepped};

use reading::kinds::{closes, mode};
use rules::kinds::{
    ARROW, BECOMES, BEGIN, COMMA, DECODE, END, EQUALS, IF, LBRA, NEXT, RBRA, REPEAT, SEMI,
};
use table::scans::{SEPARATOR, deeper, halts};

// Whether the action ends before the token or with it, and the depth and the mode behind it.
#[derive(Clone, Copy)]
pub struct Onward {
    pub ends: bool,
    pub closes: bool,
    pub depth: usize,
    pub mode: usize,
}

// What a token of this kind does, at the depth d and in the mode m.
fn step_of(d: usize, m: usize, kind: u8) -> Onward
    requires { (d < 65536) × (m < 65536) }
    ensures { Stepped d m kind result.ends result.closes result.depth result.mode }
{
    Onward {
        ends: halts(SEPARATOR, d, kind),
        closes: closes(d, kind),
        depth: deeper(d, kind),
        mode: mode(m, kind),
    }
}

// The same. The kinds that do anything are told apart here, once, so that for each of them the compiler works out what it does.
pub fn step(d: usize, m: usize, kind: u8) -> Onward
    requires { (d < 65536) × (m < 65536) }
    ensures { Stepped d m kind result.ends result.closes result.depth result.mode }
{
    match kind {
        LBRA => step_of(d, m, LBRA),
        RBRA => step_of(d, m, RBRA),
        COMMA => step_of(d, m, COMMA),
        SEMI => step_of(d, m, SEMI),
        BECOMES => step_of(d, m, BECOMES),
        EQUALS => step_of(d, m, EQUALS),
        ARROW => step_of(d, m, ARROW),
        BEGIN => step_of(d, m, BEGIN),
        END => step_of(d, m, END),
        NEXT => step_of(d, m, NEXT),
        IF => step_of(d, m, IF),
        DECODE => step_of(d, m, DECODE),
        REPEAT => step_of(d, m, REPEAT),
        _ => step_of(d, m, kind),
    }
}
