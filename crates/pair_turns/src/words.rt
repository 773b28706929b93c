// The second description's words, taken out of the table and put back.
ghost use Rattle.std.specs.Prelude.{◌≡◌, ◌*◌, ◌≤◌, length};
ghost use Rattle.cells.specs.Cells.{cells};
ghost use Rattle.rules.specs.Pair.{seen, put_back};
ghost use Rattle.pair_turns.specs.Words.{Sees, table_words};

use cells::{get16, get64, put64};

// The n words that the view has the numbers of, in its order.
pub fn take_out(view: &[u8], n: usize, carriers: &[u8], own: &mut [u8])
    requires { Sees view.now n (length carriers.now) × (8 * n ≤ length own.old) }
    ensures { cells 8 n own.new ≡ seen (cells 2 n view.now) (table_words carriers.now) }
{
    for i in 0..n {
        put64(own, i, get64(carriers, get16(view, i) as usize));
    }
}

// Each of them back to where it was.
pub fn put_back(view: &[u8], n: usize, own: &[u8], carriers: &mut [u8])
    requires { Sees view.now n (length carriers.old) × (8 * n ≤ length own.now) }
    ensures { table_words carriers.new ≡ put_back (cells 2 n view.now) (cells 8 n own.now)
        (table_words carriers.old) }
{
    for i in 0..n {
        put64(carriers, get16(view, i) as usize, get64(own, i));
    }
}
