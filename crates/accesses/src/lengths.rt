// The length of an access, by the names of its bits.
ghost use Rattle.std.specs.Prelude.{◌≡◌, ◌≤◌};
ghost use Rattle.rules.specs.Declarations as rules;
ghost use Rattle.rules.specs.Declarations.{how_many};
ghost use Rattle.accesses.specs.Lengths.{Short, own_length, part_length, access_length};

use spans::inside;
use table::views::Names;

// How many names there are from l to r: as many as a value has bits, at most.
fn how_many(l: u64, r: u64) -> u32
    requires { how_many (rules.names l r) ≤ 64 }
    ensures { result ≡ how_many (rules.names l r) }
{
    if l <= r {
        return (r - l + 1) as u32;
    }
    (l - r + 1) as u32
}

// All bits of a declaration, if it has bits.
fn own_length(own: Names) -> Option<u32>
    requires { Short own }
    ensures { result ≡ own_length own }
{
    match own {
        Names::Missing => None,
        Names::Unnamed => Some(1),
        Names::Span(l, r) => Some(how_many(l, r)),
    }
}

// The bits from l to r, if they are inside and run the same way.
fn part_length(own: Names, l: u64, r: u64) -> Option<u32>
    requires { Short own }
    ensures { result ≡ part_length own l r }
{
    match own {
        Names::Span(left, right) if inside(left, right, l, r) => Some(how_many(l, r)),
        _ => None,
    }
}

// The length of an access to bits of a declaration, with or without names of its own.
pub fn access_length(own: Names, given: Names) -> Option<u32>
    requires { Short own }
    ensures { result ≡ access_length own given }
{
    match given {
        Names::Missing => own_length(own),
        Names::Unnamed => None,
        Names::Span(l, r) => part_length(own, l, r),
    }
}
