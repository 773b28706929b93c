// The reason of a text that is refused with 51.
ghost use Rattle.std.specs.Prelude.{◌≡◌, ◌≤◌, length};
ghost use Rattle.rules.specs.Limits.{longest_text};
ghost use Rattle.rules.specs.Text.Scan.{scan};
ghost use Rattle.rules.specs.Grammar.Trees.{Description, flatten};
ghost use Rattle.rules.specs.Declarations.{declarations};
ghost use Rattle.rules.specs.Answers.{refused, Checks};
ghost use Rattle.rules.specs.Reasons.{reason51};
ghost use Rattle.rules.specs.Calls.Why.{reason_numbers};

use crate::rereading::reread;
use chaining::walks::{Numbers, chain_reason};

// The numbers of the reason of 51 at the place.
pub fn chain_of(text: &[u8], a: &mut [u8], b: &mut [u8], c: &mut [u8], place: usize) -> Numbers
    requires checks { Checks text.now (refused 51 place) × (length text.now ≤ longest_text) }
    requires in_bounds { (65536 ≤ length a.old) × ((65536 ≤ length b.old) × (65536 ≤ length c.old)) }
    ensures { (d : Description) → flatten d ≡ (scan text.now).tokens → result.n ≡ reason_numbers (reason51 (declarations d) place) }
{
    match reread(text, a, b, c) {
        Err(_) => Numbers { n: [0; 24] },
        Ok(read) => chain_reason(a, c, read.declarations, read.tokens, place),
    }
}
