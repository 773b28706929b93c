// The sentence of a refusal: what is wrong at its place, and what to change there.
#![tactic(auto)]

mod bodies;
mod calls;
mod carriers;
mod declarations;
mod grammar;
mod tokens;
mod whole;

ghost use Rattle.std.specs.Prelude.{◌+◌, ◌≤◌, length};
ghost use Rattle.lines.specs.Appended.{Appended};
ghost use Rattle.sentences.specs.Sentences.{sentence};

use crate::bodies::put_body_sentence;
use crate::calls::put_call_sentence;
use crate::carriers::put_carrier_sentence;
use crate::declarations::put_declaration_sentence;
use crate::grammar::put_grammar_sentence;
use crate::tokens::put_token_sentence;
use crate::whole::put_whole_sentence;

// By the tens of its number; a number that no text or call is refused with has none.
pub fn put_sentence(out: &mut [u8], at: usize, number: u64) -> usize
    requires { at + 256 ≤ length out.old }
    ensures { Appended out.old out.new at result (sentence number) × (result ≤ at + 256) }
{
    match number {
        0..=9 => put_call_sentence(out, at, number),
        10..=19 => put_token_sentence(out, at, number),
        20..=29 => put_grammar_sentence(out, at, number),
        30..=39 => put_declaration_sentence(out, at, number),
        40..=49 => put_body_sentence(out, at, number),
        50..=59 => put_whole_sentence(out, at, number),
        60..=69 => put_carrier_sentence(out, at, number),
        _ => at,
    }
}
