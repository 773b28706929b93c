// The sentences of 1 and 2: the call.
ghost use Rattle.std.specs.Prelude.{◌+◌, ◌≤◌, length};
ghost use Rattle.lines.specs.Appended.{Appended};
ghost use Rattle.sentences.specs.Sentences.{among, call_sentences};

use lines::bytes::put_bytes;

pub fn put_call_sentence(out: &mut [u8], at: usize, number: u64) -> usize
    requires { at + 256 ≤ length out.old }
    ensures { Appended out.old out.new at result (among call_sentences number) × (result ≤ at + 256) }
{
    match number {
        1 => put_bytes(
            out,
            at,
            b"the memory that is lent is too short: each of the three work buffers takes 65,536 bytes, the answer 32, the reason 96",
        ),
        2 => put_bytes(
            out,
            at,
            b"the text has more than 32,768 bytes; shorten its comments, or divide the description",
        ),
        _ => at,
    }
}
