// What the test program computes by itself: the numbers of a case, and the space that it lends to a call, filled before it and summed after it (tests/CASES.md).
#![tactic(auto)]

mod numbers;
mod space;

pub use numbers::{read_head, word_of};
pub use space::{fill_bytes, fill_words, sum_bytes, sum_words};

// A case's head: the op, the room, and the lengths of the two blobs.
#[derive(Clone, Copy, PartialEq, Eq)]
pub struct Head {
    pub op: u8,
    pub room: usize,
    pub first: usize,
    pub second: usize,
}
