// Compressed text: a line to words.
#![tactic(auto)]

mod codes;
mod compressing;
mod line;

pub use compressing::{compress, compressed_number};

// Why a line is not compressed.
#[derive(Clone, Copy, PartialEq, Eq)]
pub enum LineRefused {
    // a byte that is no character
    Outside,
    // over 80 columns
    Long,
}
