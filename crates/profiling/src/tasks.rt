// What is asked of a description.

// How many declarations and tokens it has, and the numbers of the test and of the output.
#[derive(Clone, Copy)]
pub struct Task {
    pub m: usize,
    pub n: usize,
    pub aim: usize,
    pub out: usize,
}
