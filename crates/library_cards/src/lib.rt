// Rows 1 to 6 of the library check: those of the tables, then each card's form and text.
#![tactic(auto)]

mod cards;
mod first;

pub use first::first_rows;
