// Where MAIN stands among the declarations.
ghost use Rattle.std.specs.Prelude.{◌≡◌, []};
ghost use Rattle.std.proofs.Math.Option.{some};
ghost use Rattle.rules.specs.Declarations.{number_of};
ghost use Rattle.rules.specs.Faults.Whole.{main_name, faults50};
ghost use Rattle.reading.specs.Reading.{Reading, table_of};

use cells::get16;
use records::fields::inside_at;
use table::views::main_of;

// The number that the name behind MAIN means.
pub fn main_number(records: &[u8], decls: &[u8], m: usize, n: usize) -> usize
    requires { Reading records.now decls.now m n }
    ensures { (v : Reading records.now decls.now m n) → faults50 (table_of v) ≡ [] → number_of (table_of v) (main_name (table_of v)) ≡ some result }
{
    for k in 0..m {
        let p = get16(decls, k) as usize;
        if main_of(records, p).is_some() {
            return inside_at(records, p);
        }
    }
    m
}
