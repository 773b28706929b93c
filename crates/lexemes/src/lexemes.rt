// What stands at a place of a text.
ghost use Rattle.std.specs.Prelude.{◌≡◌, ◌+◌, ◌<◌, ◌≤◌, length, get_or, drop};
ghost use Rattle.rules.specs.Text.Bytes.{exclamation};
ghost use Rattle.rules.specs.Text.Scan.{lexeme, lexeme_by};
ghost use Rattle.classes.specs.Classes.{Classed};
ghost use Rattle.lexemes.specs.Lexemes.{lexeme_of};
ghost use Rattle.lexemes.specs.Misspellings.{refusal_number};

use crate::constants::{based_at, decimal_at};
use crate::marks::mark_at;
use crate::words::word_at;
use classes::classes::{IN_COMMENT, class_of, run_end};

// A token takes its first byte and `more` behind it. It has its kind's number, its size (bytes of a word, bits of a constant), a constant's value and
// the bits that its `?` leave free.
#[derive(Clone, Copy, PartialEq, Eq)]
pub struct Token {
    pub more: usize,
    pub kind: u8,
    pub size: u8,
    pub value: u64,
    pub free: u64,
}

// What stands at a place: nothing, with how many bytes it takes behind its first, or a token.
#[derive(Clone, Copy, PartialEq, Eq)]
pub enum Lexeme {
    Nothing(usize),
    Token(Token),
}

// Why a text is refused at a place where neither stands.
#[derive(Clone, Copy, PartialEq, Eq)]
pub enum Misspelling {
    // A byte or a mark that is not allowed: refusal 10.
    NotAllowed,
    // A name of over 32 bytes: refusal 11.
    LongName,
    // A constant that is malformed, or of over 64 bits: refusal 12.
    BadConstant,
}

impl Misspelling {
    // The number of the refusal.
    pub fn number(self) -> u32
        ensures { result ≡ refusal_number self }
    {
        match self {
            Misspelling::NotAllowed => 10,
            Misspelling::LongName => 11,
            Misspelling::BadConstant => 12,
        }
    }
}

// The comment at a place where a `!` stands.
fn comment_at(text: &[u8], classes: &[u8; 256], at: usize) -> Result<Lexeme, Misspelling>
    requires { (Classed classes.now) × (at < length text.now) }
    ensures { result ≡ lexeme_of (lexeme_by exclamation at (get_or text.now at 0) (drop (at + 1) text.now)) }
{
    let from = at + 1;
    Ok(Lexeme::Nothing(run_end(text, classes, from, IN_COMMENT) - from))
}

// What stands at a place, by the class of its first byte: its number is that of a blank, `!`, a letter, a digit, a prefix or a mark.
pub fn lexeme_at(text: &[u8], classes: &[u8; 256], at: usize) -> Result<Lexeme, Misspelling>
    requires { (Classed classes.now) × ((at < length text.now) × (length text.now ≤ 32768)) }
    ensures { result ≡ lexeme_of (lexeme at (get_or text.now at 0) (drop (at + 1) text.now)) }
{
    let class = class_of(classes, text[at]);
    match class {
        1 => Ok(Lexeme::Nothing(0)),
        2 => comment_at(text, classes, at),
        3 => word_at(text, classes, at),
        4 => decimal_at(text, classes, at),
        6 => based_at(text, classes, at),
        8 => mark_at(text, at),
        _ => Err(Misspelling::NotAllowed),
    }
}
