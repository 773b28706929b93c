// The sentences of the sixties: carriers, which only calls that run have.
ghost use Rattle.std.specs.Prelude.{◌+◌, ◌≤◌, length};
ghost use Rattle.lines.specs.Appended.{Appended};
ghost use Rattle.sentences.specs.Sentences.{among, carrier_sentences};

use lines::bytes::put_bytes;

pub fn put_carrier_sentence(out: &mut [u8], at: usize, number: u64) -> usize
    requires { at + 256 ≤ length out.old }
    ensures { Appended out.old out.new at result (among carrier_sentences number) × (result ≤ at + 256) }
{
    match number {
        60 => put_bytes(
            out,
            at,
            b"the carriers do not have 8 bytes for each word of the description; lend just as many",
        ),
        61 => put_bytes(
            out,
            at,
            b"this word of the carriers has a bit set above its declared length; clear it",
        ),
        _ => at,
    }
}
