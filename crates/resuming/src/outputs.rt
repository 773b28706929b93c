// The output of a resume profile: the number of the storage carrier that its lent name means.
ghost use Rattle.std.specs.Prelude.{ℕ};
ghost use Rattle.rules.specs.Paths.{folded};
ghost use Rattle.naming.specs.Names.{Output};
ghost use Rattle.accepted.specs.Accepted.{Accepts, table_by};

use cells::get16;
use naming::names::{is_storage, number_of};

// The number of the storage carrier that a lent name means.
pub fn output_number(
    text: &[u8],
    records: &[u8],
    values: &[u8],
    decls: &[u8],
    m: usize,
    n: usize,
    output: &[u8],
) -> Option<usize>
    requires { (words : ℕ) × Accepts text.now records.now values.now decls.now m words n }
    ensures { (words : ℕ) (v : Accepts text.now records.now values.now decls.now m words n)
        → Output (table_by v) (folded output.now) result }
{
    let k = number_of(text, records, decls, m, n, output)?;
    let p = get16(decls, k) as usize;
    if is_storage(records, values, p) {
        return Some(k);
    }
    None
}
