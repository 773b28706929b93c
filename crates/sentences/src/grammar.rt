// The sentences of the twenties: the grammar.
ghost use Rattle.std.specs.Prelude.{◌+◌, ◌≤◌, length};
ghost use Rattle.lines.specs.Appended.{Appended};
ghost use Rattle.sentences.specs.Sentences.{among, grammar_sentences};

use lines::bytes::put_bytes;

pub fn put_grammar_sentence(out: &mut [u8], at: usize, number: u64) -> usize
    requires { at + 256 ≤ length out.old }
    ensures { Appended out.old out.new at result (among grammar_sentences number) × (result ≤ at + 256) }
{
    match number {
        20 => put_bytes(
            out,
            at,
            b"a description cannot go on like this; add what is missing before this point, or take out what stands here",
        ),
        21 => put_bytes(
            out,
            at,
            b"BEGIN, ( and [ are open more than 32 deep here; move the inner part into a body of its own, or work it out in a transfer before",
        ),
        _ => at,
    }
}
