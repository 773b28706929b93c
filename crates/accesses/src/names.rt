// The name of an access, judged by its declaration.
ghost use Rattle.std.specs.Prelude.{◌≡◌, ◌+◌, ◌≤◌};
ghost use Rattle.std.proofs.Math.Option.{Option};
ghost use Rattle.rules.specs.Grammar.Trees.{Bits};
ghost use Rattle.rules.specs.Grammar.Precedence.{Index};
ghost use Rattle.rules.specs.Declarations as rules;
ghost use Rattle.rules.specs.Faults.Bodies.{access_judged};
ghost use Rattle.accesses.specs.Lengths.{Short};
ghost use Rattle.weighing.specs.Weights.{Weighs};
ghost use Rattle.accesses.specs.Names.{NamedAt, NamedAnswer, is_missing, fits_words, Shows};

use crate::Judged;
use crate::lengths::access_length;
use cells::get16;
use keys::{NO_KEY, fault_key};
use records::fields::{inside16_at, place_at};
use table::meanings::{OUTER_ONLY, UNKNOWN};
use table::views::{Names, bits_of, bits_size, names_at, words_of};
use weighing::Weight;

pub fn is_missing(names: Names) -> bool
    ensures { result ≡ is_missing names }
{
    matches!(names, Names::Missing)
}

// Whether a subscript, given or not, fits the words of a declaration.
fn fits_words(words: Names, given: bool) -> bool
    ensures { result ≡ fits_words words given }
{
    match words {
        Names::Missing => !given,
        Names::Unnamed | Names::Span(_, _) => given,
    }
}

// An access to a declaration with these words and bits: 41 and 42.
fn declared_weight(
    words: Names,
    own: Names,
    given: Names,
    subscripted: bool,
    place: usize,
) -> Weight
    requires { Short own × (place ≤ 32768) }
    ensures { (w : Option rules.Names) (b : Option rules.BitNames) (x : Index) (g : Bits) → Shows words own given subscripted w b x g
        → Weighs result.key result.bits (access_judged place w b x g) }
{
    if is_missing(own) {
        return Weight {
            key: fault_key(41, place),
            bits: 0,
        };
    }
    if !fits_words(words, subscripted) {
        return Weight {
            key: fault_key(41, place),
            bits: 0,
        };
    }
    match access_length(own, given) {
        None => Weight {
            key: fault_key(42, place),
            bits: 0,
        },
        Some(bits) => Weight { key: NO_KEY, bits },
    }
}

// The name i of an access, with a subscript or without, whose bits stand from p on.
pub fn named(
    records: &[u8],
    values: &[u8],
    decls: &[u8],
    i: usize,
    p: usize,
    subscripted: bool,
) -> Judged
    requires { NamedAt records.now values.now decls.now i p }
    ensures { (v : NamedAt records.now values.now decls.now i p) → NamedAnswer v subscripted result }
{
    let next = p + bits_size(records, p);
    let place = place_at(records, i);
    let meaning = inside16_at(records, i);
    if meaning == UNKNOWN {
        return Judged {
            key: fault_key(40, place),
            bits: 0,
            next,
        };
    }
    if meaning == OUTER_ONLY {
        return Judged {
            key: fault_key(41, place),
            bits: 0,
            next,
        };
    }
    let d = get16(decls, meaning as usize) as usize;
    let words = words_of(records, values, d);
    let own = bits_of(records, values, d);
    let given = names_at(records, values, p);
    let weight = declared_weight(words, own, given, subscripted, place);
    Judged {
        key: weight.key,
        bits: weight.bits,
        next,
    }
}
