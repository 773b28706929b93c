// The walk along the tokens of a body.
ghost use Rattle.walking.specs.Going.{Beginning, Walked};

use crate::steps::step;
use counting::counts::Nest;
use reading::kinds::mode;
use records::fields::kind_at;

// The count of the body at `from`.
pub fn walk(records: &[u8], table: &[u8], room: &mut [u8], m: usize, n: usize, from: usize) -> u64
    requires { Beginning records.now table.now room.old m n }
    ensures { Walked records.now table.now m n from result }
{
    let mut s = Nest { depth: 0, count: 0 };
    let mut reading: usize = 0;
    for i in from..n {
        let kind = kind_at(records, i);
        s = step(records, table, room, m, n, i, kind, reading, s);
        if s.depth == 0 {
            return s.count;
        }
        reading = mode(reading, kind);
    }
    s.count
}
