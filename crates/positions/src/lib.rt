// Line and column of a place in a text.
#![tactic(auto)]

mod cursors;

ghost use Rattle.std.specs.Prelude.{◌≡◌, ◌<◌, ◌≤◌, length};
ghost use Rattle.rules.specs.Positions.{elsewhere, position_at, position_of};
ghost use Rattle.rules.specs.Whole.Sets.{member};
ghost use Rattle.positions.specs.Cursors.{position_here};

pub use crate::cursors::Cursor;
use crate::cursors::{advanced, start};

// The numbers whose place is no offset in the text.
const ELSEWHERE: [u32; 11] = [1, 2, 60, 61, 62, 63, 64, 81, 90, 91, 110];

// Whether the place that belongs to a number is no offset in the text.
fn is_elsewhere(number: u32) -> bool
    ensures { result ≡ member number elsewhere }
{
    ELSEWHERE.contains(&number)
}

// Walks a text up to an offset.
pub fn walked(text: &[u8], offset: usize) -> Cursor
    requires { (offset ≤ length text.now) × (offset < 65536) }
    ensures { position_here result ≡ position_at text.now offset }
{
    let mut c = start();
    for &byte in &text[..offset] {
        c = advanced(c, byte);
    }
    c
}

// Line and column of a refusal or a fault, by its number and its place: one walk up to the place.
pub fn position_of(text: &[u8], number: u32, place: usize) -> Cursor
    requires { place < 65536 }
    ensures { position_here result ≡ position_of text.now number place }
{
    if is_elsewhere(number) {
        return start();
    }
    if text.len() < place {
        return walked(text, text.len());
    }
    walked(text, place)
}
