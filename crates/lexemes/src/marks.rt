// Marks, the longest first.
ghost use Rattle.std.specs.Prelude.{◌≡◌, ◌+◌, ◌<◌, ◌≤◌, length, get_or, take, drop};
ghost use Rattle.rules.specs.Text.Bytes.{mark};
ghost use Rattle.rules.specs.Text.Scan.{lexeme_by};
ghost use Rattle.lexemes.specs.Codes.{mark_digit, mark_code, kind_found, mark_token, pairs, singles};
ghost use Rattle.lexemes.specs.Lexemes.{lexeme_of};

use crate::lexemes::{Lexeme, Misspelling, Token};
use rules::kinds::{
    ARROW, AT, BECOMES, COLON, COMMA, EQUALS, GREATER, LBRA, LESS, LPAR, MINUS, PLUS, RBRA, RPAR,
    SEMI, STARS,
};

// The byte as a digit of a mark's number.
fn mark_digit(b: u8) -> u32
    ensures { (result ≡ mark_digit b) × (result ≤ 256) }
{
    b as u32 + 1
}

// The number of the two bytes at a place, or of the last byte of a text.
fn pair_code(text: &[u8], at: usize) -> u32
    requires { at < length text.now }
    ensures { result ≡ mark_code (take 2 (drop at text.now)) }
{
    let first = mark_digit(text[at]);
    let next = at + 1;
    if next < text.len() {
        return first + 257 * mark_digit(text[next]);
    }
    first
}

// The kind of the mark of two bytes that has this number.
fn pair_kind(code: u32) -> Option<u8>
    ensures { result ≡ kind_found mark_code code pairs }
{
    match code {
        15993 => Some(BECOMES), // :=
        16253 => Some(ARROW), // =>
        11094 => Some(STARS), // **
        _ => None,
    }
}

// The kind of the mark of one byte that has this number.
fn single_kind(code: u32) -> Option<u8>
    ensures { result ≡ kind_found mark_code code singles }
{
    match code {
        41 => Some(LPAR), // (
        42 => Some(RPAR), // )
        92 => Some(LBRA), // [
        94 => Some(RBRA), // ]
        61 => Some(LESS), // <
        63 => Some(GREATER), // >
        45 => Some(COMMA), // ,
        60 => Some(SEMI), // ;
        59 => Some(COLON), // :
        62 => Some(EQUALS), // =
        65 => Some(AT), // @
        44 => Some(PLUS), // +
        46 => Some(MINUS), // -
        _ => None,
    }
}

// The token of a mark of a kind, with some bytes behind its first.
fn mark_token(kind: u8, more: usize) -> Lexeme
    ensures { result ≡ mark_token kind more }
{
    Lexeme::Token(Token {
        more,
        kind,
        size: 0,
        value: 0,
        free: 0,
    })
}

// The mark at a place.
pub fn mark_at(text: &[u8], at: usize) -> Result<Lexeme, Misspelling>
    requires { at < length text.now }
    ensures { result ≡ lexeme_of (lexeme_by mark at (get_or text.now at 0) (drop (at + 1) text.now)) }
{
    if let Some(pair) = pair_kind(pair_code(text, at)) {
        return Ok(mark_token(pair, 1));
    }
    if let Some(single) = single_kind(mark_digit(text[at])) {
        return Ok(mark_token(single, 0));
    }
    Err(Misspelling::NotAllowed)
}
