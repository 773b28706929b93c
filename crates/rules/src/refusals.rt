// What a refused text is told: the number of the rule that it breaks, as document 01 numbers them, and the place where it does.
#[derive(Clone, Copy, PartialEq, Eq)]
pub struct Refusal {
    pub number: u32,
    pub place: usize,
}
