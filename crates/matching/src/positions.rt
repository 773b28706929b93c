// Numbers of entries, with one that stands for none and is greater than all.
ghost use Rattle.std.specs.Prelude.{◌≡◌};
ghost use Rattle.traces.specs.Cited.Marking as marking;
ghost use Rattle.matching.specs.Room.{pos_of};

// None: a floor that nothing can follow, no bad entry.
pub const NEVER: u16 = 65535;

pub fn lesser(a: u16, b: u16) -> u16
    ensures { pos_of result ≡ marking.lesser (pos_of a) (pos_of b) }
{
    a.min(b)
}

pub fn greater(a: u16, b: u16) -> u16
    ensures { pos_of result ≡ marking.greater (pos_of a) (pos_of b) }
{
    a.max(b)
}
