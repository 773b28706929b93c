// Names of bits and words: how many there are, and how far one stands from the right. A name may be any u64.
ghost use Rattle.std.specs.Prelude.{◌≡◌, ◌+◌, ◌<◌, ◌≤◌};
ghost use Rattle.rules.specs.Declarations as rules;
ghost use Rattle.rules.specs.Declarations.{names, how_many, from_right};
ghost use Rattle.rules.specs.Limits.{most_words};
ghost use Rattle.places.specs.Spans.{ManyIn, LowIn};

use rules::limits::MOST_WORDS;
use table::views::Names;

// One more than the distance of two names, cut at how many words there can be.
fn counted(distance: u64) -> u64
    ensures { (result ≤ most_words) × (distance < most_words → result ≡ distance + 1) }
{
    distance.min(MOST_WORDS as u64 - 1) + 1
}

// How many names there are from l to r, where that is no more than there can be words.
pub fn how_many(l: u64, r: u64) -> u64
    ensures { (result ≤ most_words) × (how_many (names l r) ≤ most_words → result ≡ how_many (names l r)) }
{
    if l <= r {
        return counted(r - l);
    }
    counted(l - r)
}

// How far n stands from the right one.
fn from_right(l: u64, r: u64, n: u64) -> u64
    ensures { result ≡ from_right (names l r) n }
{
    if l <= r {
        return r.saturating_sub(n);
    }
    n.saturating_sub(r)
}

// The lowest of the bits that end at the name `right`, among those of a declaration.
pub fn low_bit(own: Names, right: u64) -> u64
    ensures { LowIn own right result }
{
    match own {
        Names::Missing | Names::Unnamed => 0,
        Names::Span(l, r) => from_right(l, r, right),
    }
}

// How many bits a declaration has.
pub fn own_count(own: Names) -> u64
    ensures { ManyIn own result }
{
    match own {
        Names::Missing => 0,
        Names::Unnamed => 1,
        Names::Span(l, r) => how_many(l, r),
    }
}
