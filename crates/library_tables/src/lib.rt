// Rows 1 to 4 of the library check: the words' size, the header, the counts and the names of the tables.
#![tactic(auto)]

mod first;
mod tables;

pub use first::table_rows;
pub use tables::{decks_of, entries_of};
