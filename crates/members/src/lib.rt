// The members of groups, in two cells of two bytes for each token: its rank, and the member around it. What is behind the last token is in no member.
#![tactic(auto)]

ghost use Rattle.std.specs.Prelude.{◌≡◌, ◌*◌, ◌≤◌, length};
ghost use Rattle.telling.specs.Cited.Cells.{member_of};
ghost use Rattle.members.specs.Cells.{cells_in};

use cells::get16;

// Members are numbers of tokens here, and 0 is none, as in the cells that the theorems of `telling` are about.

// The rank of the token i of n.
pub fn rank_at(cells: &[u8], n: usize, i: usize) -> usize
    requires { 4 * n ≤ length cells.now }
    ensures { result ≡ (cells_in cells.now n).rank i }
{
    if n <= i {
        return 0;
    }
    get16(cells, 2 * i) as usize
}

// The member around the token i of n, or around its group where it begins a member; 0 where there is none.
pub fn up_at(cells: &[u8], n: usize, i: usize) -> usize
    requires { 4 * n ≤ length cells.now }
    ensures { result ≡ (cells_in cells.now n).up i }
{
    if n <= i {
        return 0;
    }
    get16(cells, 2 * i + 1) as usize
}

// The innermost member around the instruction i of n.
pub fn member_of(cells: &[u8], n: usize, i: usize) -> usize
    requires { 4 * n ≤ length cells.now }
    ensures { result ≡ member_of (cells_in cells.now n) i }
{
    if rank_at(cells, n, i) == 0 {
        return up_at(cells, n, i);
    }
    i
}
