// Sets of storage carriers by their numbers, which are below 256: four words by value.
ghost use Rattle.std.specs.Prelude.{◌≡◌, replicate};
ghost use Rattle.destinations.specs.Carriers.{holds, added};

#[derive(Clone, Copy)]
pub struct Carriers {
    pub words: [u64; 4],
}

pub fn no_carriers() -> Carriers
    ensures { result.words ≡ replicate 4 0 }
{
    Carriers { words: [0; 4] }
}

#[tactic(auto, unfolding(crate::specs::Carriers::holds))]
pub fn has(set: Carriers, i: u8) -> bool
    ensures { result ≡ holds set.words i }
{
    let k = (i / 64) as usize;
    (set.words[k] >> (i % 64)) % 2 == 1
}

pub fn with(set: Carriers, i: u8) -> Carriers
    ensures { result.words ≡ added set.words i }
{
    let k = (i / 64) as usize;
    let mut next = set;
    next.words[k] = next.words[k] | (1 << (i % 64));
    next
}
