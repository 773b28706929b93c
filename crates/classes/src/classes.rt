// The class of a byte by a table of classes, and runs of bytes of some classes.
ghost use Rattle.std.specs.Prelude.{◌≡◌, ◌≤◌, length};
ghost use Rattle.rules.specs.Text.Bytes.{class_no, class_of};
ghost use Rattle.classes.specs.Classes.{Classed, among, RunEnds};

// The classes that a name, a constant and a comment go on with, as bits.
pub const IN_NAME: u32 = 56;

pub const IN_CONSTANT: u32 = 184;

pub const IN_COMMENT: u32 = 1022;

pub fn class_of(classes: &[u8; 256], b: u8) -> u8
    requires { Classed classes.now }
    ensures { result ≡ class_no (class_of b) }
{
    classes[b as usize]
}

// Whether a run of the classes in `set` goes on with b. Byte 10 ends every run: it ends a comment, and no other run has its class.
#[tactic(auto, unfolding(crate::specs::Classes::among))]
fn goes_on(classes: &[u8; 256], set: u32, b: u8) -> bool
    requires { Classed classes.now }
    ensures { result ≡ among set b }
{
    b != 10 && (set >> class_of(classes, b)) % 2 == 1
}

// Where the run of the classes in `set` ends that starts at `from`.
pub fn run_end(text: &[u8], classes: &[u8; 256], from: usize, set: u32) -> usize
    requires { (Classed classes.now) × (from ≤ length text.now) }
    ensures { RunEnds set text.now from result }
{
    for i in from..text.len() {
        if !goes_on(classes, set, text[i]) {
            return i;
        }
    }
    text.len()
}
