// The lent names: the number of the declaration that each one means.
ghost use Rattle.std.specs.Prelude.{◌≡◌, ◌+◌, ◌≤◌, eqb, length};
ghost use Rattle.rules.specs.Text.Bytes.{fold};
ghost use Rattle.rules.specs.Text.Scan.{same_bytes};
ghost use Rattle.rules.specs.Declarations.{declared_of, number_of};
ghost use Rattle.rules.specs.Paths.{folded};
ghost use Rattle.records.specs.Holds.{folded_at};
ghost use Rattle.table.specs.Views.{View};
ghost use Rattle.whole.specs.Written.{Written, whole};
ghost use Rattle.naming.specs.Names.{found, is_storage_of, Test};

use cells::get16;
use classes::letters::upper;
use reading::bodies::body_at;
use records::fields::{place_at, size_at};
use table::views::{Names, bits_of, target_of};

// Whether two bytes are the same but for the case of letters.
fn same_letter(x: u8, y: u8) -> bool
    ensures { result ≡ eqb (fold x) (fold y) }
{
    let a = upper(x);
    let b = upper(y);
    a == b
}

// Whether n bytes of the text from p on are a lent name, but for the case of letters.
fn is_name(text: &[u8], p: usize, n: usize, name: &[u8]) -> bool
    requires { p + n ≤ length text.now }
    ensures { result ≡ same_bytes (folded_at text.now p n) (folded name.now) }
{
    if name.len() != n {
        return false;
    }
    for k in 0..n {
        if !same_letter(text[p + k], name[k]) {
            return false;
        }
    }
    true
}

// The number of the first of the m declarations that has a lent name.
pub fn number_of(
    text: &[u8],
    records: &[u8],
    decls: &[u8],
    m: usize,
    n: usize,
    name: &[u8],
) -> Option<usize>
    requires { Written text.now records.now decls.now m n }
    ensures { (v : Written text.now records.now decls.now m n) → result ≡ found (number_of (whole v) (folded name.now)) }
{
    for k in 0..m {
        let p = get16(decls, k) as usize;
        let size = size_at(records, p) as usize;
        if is_name(text, place_at(records, p), size, name) {
            return Some(k);
        }
    }
    None
}

// Whether the declaration whose name is the token p is a storage carrier: it has bits, and is no mapping.
pub fn is_storage(records: &[u8], values: &[u8], p: usize) -> bool
    requires { View records.now values.now p }
    ensures { (v : View records.now values.now p) → result ≡ is_storage_of (declared_of v.declaration) }
{
    match target_of(records, p) {
        Some(_) => false,
        None => match bits_of(records, values, p) {
            Names::Missing => false,
            Names::Unnamed => true,
            Names::Span(_, _) => true,
        },
    }
}

// The number of the body that a lent name means.
pub fn test_number(
    text: &[u8],
    records: &[u8],
    decls: &[u8],
    m: usize,
    n: usize,
    test: &[u8],
) -> Option<usize>
    requires { Written text.now records.now decls.now m n }
    ensures { (v : Written text.now records.now decls.now m n) → Test (whole v) (folded test.now) result }
{
    let k = number_of(text, records, decls, m, n, test)?;
    match body_at(records, decls, m, n, k) {
        Some(_) => Some(k),
        None => None,
    }
}
