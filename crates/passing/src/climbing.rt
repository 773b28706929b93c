// The way up from a member: the members around it.
ghost use Rattle.std.specs.Prelude.{◌≡◌, ◌*◌, ◌≤◌, length};
ghost use Rattle.rules.specs.Limits.{deepest};
ghost use Rattle.telling.specs.Cited.Cells.{up_from};
ghost use Rattle.members.specs.Cells.{cells_in};
ghost use Rattle.passing.specs.Climbing.{up_by};

use members::up_at;
use rules::limits::DEEPEST;

// How many members there are from x on. Brackets nest no deeper, so that the count ends whatever the cells are. Always
// inlined, since a run that is traced asks for it with each step.
#[inline(always)]
pub fn depth_of(cells: &[u8], n: usize, x: usize) -> usize
    requires { 4 * n ≤ length cells.now }
    ensures { result ≡ length (up_from (cells_in cells.now n) deepest x) }
{
    let mut at = x;
    for depth in 0..DEEPEST {
        if at == 0 {
            return depth;
        }
        at = up_at(cells, n, at);
    }
    DEEPEST
}

// The member that is so many above x.
pub fn up_by(cells: &[u8], n: usize, x: usize, count: usize) -> usize
    requires { 4 * n ≤ length cells.now }
    ensures { result ≡ up_by (cells_in cells.now n) count x }
{
    let mut at = x;
    for _k in 0..count {
        at = up_at(cells, n, at);
    }
    at
}
