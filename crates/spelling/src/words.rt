// Words as numbers, once names are spelled.
ghost use Rattle.std.specs.Prelude.{◌≡◌};
ghost use Rattle.spelling.specs.Spelled.{TwoSpelled, spelled_alike};

use records::fields::link_at;

// Whether the names i and j have the same word.
pub fn same_spelling(records: &[u8], i: usize, j: usize) -> bool
    requires { TwoSpelled records.now i j }
    ensures { (v : TwoSpelled records.now i j) → result ≡ spelled_alike v }
{
    link_at(records, i) == link_at(records, j)
}
