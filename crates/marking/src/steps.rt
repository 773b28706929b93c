// What a token does to a walk.
ghost use Rattle.marking.specs.Walking.{Acting, Acted};

use crate::frames::{Nest, also, close, inside, next, open};
use reading::kinds::more;
use records::fields::kind_at;
use rules::kinds::{BEGIN, END, NEXT, SEMI};

// The token i of n.
pub fn step(records: &[u8], room: &mut [u8], n: usize, i: usize, s: Nest) -> Nest
    requires { Acting records.now room.old n i s }
    ensures { Acted records.now room.old room.new n i s result }
{
    let kind = kind_at(records, i);
    if kind == BEGIN {
        let followed = more(records, n, i + 1);
        return open(room, s, i, followed);
    }
    if kind == END {
        return close(room, s, i);
    }
    if kind == SEMI {
        let followed = more(records, n, i + 1);
        return also(room, s, i, followed);
    }
    if kind == NEXT {
        let followed = more(records, n, i + 1);
        return next(room, s, i, followed);
    }
    inside(s.depth, s.around)
}
