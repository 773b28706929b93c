// Where a run begins.
ghost use Rattle.links.specs.Mains.{MainIn, MainNamed, MainFound};

use cells::get16;
use records::fields::link_at;
use table::views::main_of;

// The token of MAIN's name: that of the first declaration with MAIN before it.
pub fn main_name(records: &[u8], decls: &[u8], m: usize) -> usize
    requires { MainIn records.now decls.now m }
    ensures { (v : MainIn records.now decls.now m) → MainNamed v result }
{
    for k in 0..m {
        let name = get16(decls, k) as usize;
        if main_of(records, name).is_some() {
            return name;
        }
    }
    // One of the declarations is MAIN's: the loop has found it.
    0
}

// The first instruction of MAIN's body, which its name leads to.
pub fn main_start(records: &[u8], decls: &[u8], m: usize) -> usize
    requires { MainIn records.now decls.now m }
    ensures { (v : MainIn records.now decls.now m) → MainFound v result }
{
    link_at(records, main_name(records, decls, m))
}
