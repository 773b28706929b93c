// Words: names, and the keywords among them.
ghost use Rattle.std.specs.Prelude.{◌≡◌, true, map, ◌+◌, ◌<◌, ◌≤◌, length, get_or, drop};
ghost use Rattle.std.proofs.Math.Seq.{slice};
ghost use Rattle.rules.specs.Text.Bytes.{letter, fold, in_name};
ghost use Rattle.rules.specs.Text.Tokens.{keywords, kind_no};
ghost use Rattle.rules.specs.Text.Constants.{all};
ghost use Rattle.rules.specs.Text.Scan.{word_kind, lexeme_by};
ghost use Rattle.classes.specs.Classes.{Classed};
ghost use Rattle.lexemes.specs.Codes.{word_code, word_digit, kind_by};
ghost use Rattle.lexemes.specs.Lexemes.{lexeme_of};

use crate::lexemes::{Lexeme, Misspelling, Token};
use classes::classes::{IN_NAME, run_end};
use classes::letters::upper;
use rules::kinds::{
    AND, BEGIN, DECODE, END, EQL, EQV, GEQ, GTR, IF, LEAVE, LEQ, LSS, MAIN, NAME, NEQ, NEXT, NO_OP,
    NOT, OR, OTHERWISE, REPEAT, RESTART, STOP, XOR,
};
use rules::limits::LONGEST_NAME;

// The byte as a digit of a word's number.
fn word_digit(b: u8) -> u64
    ensures { (result ≡ word_digit (fold b)) × (result < 64) }
{
    (upper(b) as u64 + 32) % 64
}

// The number of the word from `at` to `end`, its first byte the lowest digit: six bits a byte, so that the longest keyword fits.
fn word_code(text: &[u8], at: usize, end: usize) -> u64
    requires { (at ≤ end) × ((end ≤ at + 9) × (end ≤ length text.now)) }
    ensures { result ≡ word_code (map fold (slice at end text.now)) }
{
    let mut code: u64 = 0;
    for i in (at..end).rev() {
        code = word_digit(text[i]) + 64 * code;
    }
    code
}

// The kind of the keyword that has this number, and that of a name where none has.
fn keyword_kind(code: u64) -> u8
    ensures { result ≡ kind_by word_code code keywords }
{
    match code {
        782661986 => BEGIN,
        150437 => END,
        13863278 => NEXT,
        2473 => IF,
        40344893796 => DECODE,
        10641751913434415 => OTHERWISE,
        56398121330 => REPEAT,
        635050348 => LEAVE,
        3627667372402 => RESTART,
        12228717 => MAIN,
        12778803 => STOP,
        817687534 => NO_OP,
        216046 => NOT,
        150433 => AND,
        224357 => EQV,
        3247 => OR,
        207864 => XOR,
        183397 => EQL,
        203118 => NEQ,
        212204 => LSS,
        203116 => LEQ,
        208167 => GTR,
        203111 => GEQ,
        _ => NAME,
    }
}

// The kind of the word from `at` to `end`. No keyword has over 9 bytes.
fn word_kind(text: &[u8], at: usize, end: usize) -> u8
    requires { (at ≤ end) × ((end ≤ length text.now) × (all in_name (slice at end text.now) ≡ true)) }
    ensures { result ≡ kind_no (word_kind keywords (map fold (slice at end text.now))) }
{
    if 9 < end - at {
        return NAME;
    }
    keyword_kind(word_code(text, at, end))
}

// The word at a place where a letter stands.
pub fn word_at(text: &[u8], classes: &[u8; 256], at: usize) -> Result<Lexeme, Misspelling>
    requires { (Classed classes.now) × ((at < length text.now) × (in_name (get_or text.now at 0) ≡ true)) }
    ensures { result ≡ lexeme_of (lexeme_by letter at (get_or text.now at 0) (drop (at + 1) text.now)) }
{
    let end = run_end(text, classes, at + 1, IN_NAME);
    let size = end - at;
    if LONGEST_NAME < size {
        return Err(Misspelling::LongName);
    }
    Ok(Lexeme::Token(Token {
        more: size - 1,
        kind: word_kind(text, at, end),
        size: size as u8,
        value: 0,
        free: 0,
    }))
}
