// The sentences of the tens: bytes and tokens.
ghost use Rattle.std.specs.Prelude.{◌+◌, ◌≤◌, length};
ghost use Rattle.lines.specs.Appended.{Appended};
ghost use Rattle.sentences.specs.Sentences.{among, token_sentences};

use lines::bytes::put_bytes;

pub fn put_token_sentence(out: &mut [u8], at: usize, number: u64) -> usize
    requires { at + 256 ≤ length out.old }
    ensures { Appended out.old out.new at result (among token_sentences number) × (result ≤ at + 256) }
{
    match number {
        10 => put_bytes(
            out,
            at,
            b"this byte or mark does not belong to the notation; take it out or replace it (a comment has only tabs, line ends and printable ASCII)",
        ),
        11 => put_bytes(
            out,
            at,
            b"this name has more than 32 bytes; shorten it wherever it stands",
        ),
        12 => put_bytes(
            out,
            at,
            b"this constant is malformed or has over 64 bits; check its digits (' binary, # octal, \" hexadecimal, else decimal without ?) and what follows them",
        ),
        13 => put_bytes(
            out,
            at,
            b"this is token 8,193, and a text has at most 8,192; shorten the description, or divide it",
        ),
        _ => at,
    }
}
