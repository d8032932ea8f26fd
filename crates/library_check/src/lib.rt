// Rows 7 to 10 of the library check, and the check of an image as a whole.
#![tactic(auto)]

mod bits;
mod deck_cards;
mod twice;
mod whole;
mod yanks;

pub use whole::check;
