// Names of words and bits: how many there are, how large, and whether some lie inside others. A name may be any u64.
#![tactic(auto)]

ghost use Rattle.std.specs.Prelude.{◌≡◌, false, ◌+◌, ◌≤◌};
ghost use Rattle.rules.specs.Declarations.{names, how_many, these};
ghost use Rattle.rules.specs.Faults.Declared.{far_names, among, inside as lies-inside};
ghost use Rattle.rules.specs.Limits.{most_words};
ghost use Rattle.spans.specs.Spans.{far_shown, large_shown, missing_shown, count_shown, storage_shown, same_count, fits_in, fits_shown};

use rules::limits::{LARGEST_NAME, MOST_BITS};
use table::views::Names;

// One fewer than there are: their number itself may not fit.
fn distance(left: u64, right: u64) -> u64
    ensures { result + 1 ≡ how_many (names left right) }
{
    if left < right {
        return right - left;
    }
    left - right
}

// Whether there are none.
pub fn is_missing(span: Names) -> bool
    ensures { result ≡ missing_shown span }
{
    match span {
        Names::Missing => true,
        Names::Unnamed => false,
        Names::Span(_, _) => false,
    }
}

// One fewer than there are in a declaration.
pub fn last_of(span: Names) -> u64
    ensures { result + 1 ≡ count_shown span }
{
    match span {
        Names::Span(left, right) => distance(left, right),
        Names::Missing => 0,
        Names::Unnamed => 0,
    }
}

// The words of a declaration that is no mapping, by its bits and words.
pub fn storage_words(bits: Names, words: Names) -> usize
    requires { far_shown words ≡ false }
    ensures { (result ≡ storage_shown bits words) × (result ≤ most_words) }
{
    if is_missing(bits) {
        return 0;
    }
    last_of(words) as usize + 1
}

// Whether one of two names is too large.
fn is_far(left: u64, right: u64) -> bool
    ensures { result ≡ far_names (names left right) }
{
    if LARGEST_NAME < left {
        return true;
    }
    LARGEST_NAME < right
}

// Whether a name is too large.
pub fn far(span: Names) -> bool
    ensures { result ≡ far_shown span }
{
    match span {
        Names::Span(left, right) => is_far(left, right),
        Names::Missing => false,
        Names::Unnamed => false,
    }
}

// Whether there are too many bits, or a name is too large.
pub fn large_bits(span: Names) -> bool
    ensures { result ≡ large_shown span }
{
    match span {
        Names::Span(left, right) => {
            if is_far(left, right) {
                return true;
            }
            MOST_BITS <= distance(left, right)
        }
        Names::Missing => false,
        Names::Unnamed => false,
    }
}

// Whether a name lies from `left` to `right`, either way round.
fn is_among(left: u64, right: u64, n: u64) -> bool
    ensures { result ≡ among (names left right) n }
{
    if left <= right {
        if n < left {
            return false;
        }
        return n <= right;
    }
    if n < right {
        return false;
    }
    n <= left
}

// Whether the bits from `first` to `last` lie inside others and run the same way.
pub fn inside(left: u64, right: u64, first: u64, last: u64) -> bool
    ensures { result ≡ lies-inside (these (names left right)) (names first last) }
{
    if !is_among(left, right, first) {
        return false;
    }
    if !is_among(left, right, last) {
        return false;
    }
    if first == last {
        return true;
    }
    if left <= right {
        return first <= last;
    }
    last < first
}

// Whether there are as many bits as from `first` to `last`.
fn as_many(own: Names, first: u64, last: u64) -> bool
    ensures { result ≡ same_count own (names first last) }
{
    match own {
        Names::Span(left, right) => distance(left, right) == distance(first, last),
        Names::Missing => false,
        Names::Unnamed => 0 == distance(first, last),
    }
}

// Whether a mapping with bits of its own fits on some of those from `left` to `right`.
fn fits_in(left: u64, right: u64, own: Names, on: Names) -> bool
    ensures { result ≡ fits_in (names left right) own on }
{
    match on {
        Names::Span(first, last) => {
            if !inside(left, right, first, last) {
                return false;
            }
            as_many(own, first, last)
        }
        Names::Missing => false,
        Names::Unnamed => false,
    }
}

// Whether it fits on some of the bits of its target.
pub fn fits(bits: Names, own: Names, on: Names) -> bool
    ensures { result ≡ fits_shown bits own on }
{
    match bits {
        Names::Span(left, right) => fits_in(left, right, own, on),
        Names::Missing => false,
        Names::Unnamed => false,
    }
}
