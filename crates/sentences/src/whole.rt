// The sentences of the fifties: the whole description.
ghost use Rattle.std.specs.Prelude.{◌+◌, ◌≤◌, length};
ghost use Rattle.lines.specs.Appended.{Appended};
ghost use Rattle.sentences.specs.Sentences.{among, whole_sentences};

use lines::bytes::put_bytes;

pub fn put_whole_sentence(out: &mut [u8], at: usize, number: u64) -> usize
    requires { at + 256 ≤ length out.old }
    ensures { Appended out.old out.new at result (among whole_sentences number) × (result ≤ at + 256) }
{
    match number {
        50 => put_bytes(
            out,
            at,
            b"MAIN must stand before one body, the one that a run starts with; add it where it is missing, or take this second one out",
        ),
        51 => put_bytes(
            out,
            at,
            b"activations that start with this body come back to a body that is still active, or go more than 16 bodies deep; take one activation out",
        ),
        52 => put_bytes(
            out,
            at,
            b"a member may not end what those beside it still do; aim LEAVE and RESTART inside the member, and put NEXT instead of ; before what comes to STOP()",
        ),
        53 => put_bytes(
            out,
            at,
            b"this member and an earlier one go on at the same time, and one writes what the other uses, itself or in a body; put NEXT between them instead of ;",
        ),
        _ => at,
    }
}
