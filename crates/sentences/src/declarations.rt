// The sentences of the thirties: declarations.
ghost use Rattle.std.specs.Prelude.{◌+◌, ◌≤◌, length};
ghost use Rattle.lines.specs.Appended.{Appended};
ghost use Rattle.sentences.specs.Sentences.{among, declaration_sentences};

use lines::bytes::put_bytes;

pub fn put_declaration_sentence(out: &mut [u8], at: usize, number: u64) -> usize
    requires { at + 256 ≤ length out.old }
    ensures { Appended out.old out.new at result (among declaration_sentences number) × (result ≤ at + 256) }
{
    match number {
        30 => put_bytes(
            out,
            at,
            b"this name is declared already, or is the name of the description; choose another one",
        ),
        31 => put_bytes(
            out,
            at,
            b"this declaration has more than 64 bits, or a bit or word name above 4,095; make it shorter, or number it lower",
        ),
        32 => put_bytes(
            out,
            at,
            b"this is declaration 257, or it brings the words of all carriers above 4,096; take declarations out, or make an array smaller",
        ),
        33 => put_bytes(
            out,
            at,
            b"this mapping does not fit; its target must be declared, no array and no mapping, and have the named bits, as many and the same way round",
        ),
        _ => at,
    }
}
