// Compressed text: words to a line.
#![tactic(auto)]

mod columns;
mod expanding;
mod say;

pub use expanding::{expand, expanded_number};
