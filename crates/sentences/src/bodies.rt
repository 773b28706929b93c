// The sentences of the forties: bodies.
ghost use Rattle.std.specs.Prelude.{◌+◌, ◌≤◌, length};
ghost use Rattle.lines.specs.Appended.{Appended};
ghost use Rattle.sentences.specs.Sentences.{among, body_sentences};

use lines::bytes::put_bytes;

pub fn put_body_sentence(out: &mut [u8], at: usize, number: u64) -> usize
    requires { at + 256 ≤ length out.old }
    ensures { Appended out.old out.new at result (among body_sentences number) × (result ≤ at + 256) }
{
    match number {
        40 => put_bytes(
            out,
            at,
            b"this name is not declared; declare it, or correct its spelling",
        ),
        41 => put_bytes(
            out,
            at,
            b"this name is not used as it is declared; an array takes a subscript [ ] and nothing else does, only bits are read or written, only a body takes ( )",
        ),
        42 => put_bytes(
            out,
            at,
            b"these bits are not among the declared ones, or run the other way round; name them as the declaration has them",
        ),
        43 => put_bytes(
            out,
            at,
            b"more than 64 bits come together at this operator; take shorter operands, or join fewer of them",
        ),
        44 => put_bytes(
            out,
            at,
            b"this label is in the body already or is a declared name, or this LEAVE or RESTART aims at no label around it nor at its body; choose another name",
        ),
        45 => put_bytes(
            out,
            at,
            b"this alternative is the 65th, has a selector that the tested bits cannot hold, or overlaps one before it; correct its selector",
        ),
        46 => put_bytes(
            out,
            at,
            b"this carrier is stored twice by one transfer, perhaps through a mapping; store it once, or make two transfers",
        ),
        _ => at,
    }
}
