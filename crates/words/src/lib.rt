// Words of 60 bits: the display code and columns.
#![tactic(auto)]

mod codes;
mod columns;
mod display;

pub use codes::{BASE, BITS, TEN, TOP, power, wide};
pub use columns::{in_set, trimmed};
pub use display::{BLANK, GAP, code_of, letter_in, letter_of};
