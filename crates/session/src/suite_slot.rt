// A slot by its numbers.

/// A slot of a suite, by their numbers, which count from 1.
#[derive(Clone, Copy, PartialEq, Eq, Debug)]
pub struct SuiteSlot {
    pub suite: usize,
    pub slot: usize,
}
