//! Counts of turns and of numbers drawn.

/// How many turns were made, and how many numbers were drawn.
#[derive(Clone, Copy, PartialEq, Eq, Debug)]
pub struct Tally {
    pub turns: u64,
    pub numbers: u64,
}
