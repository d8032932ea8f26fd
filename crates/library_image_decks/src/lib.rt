// The decks of an image as it stands, whatever its words: deck cards, and a table of the decks made once (RULES, "Decks").
#![tactic(auto)]

mod deck_lines;
mod table;
mod titles;

pub use table::{COMMON, FROM, KIND, ROW, TABLE, TO, cards_place, put_table};
pub use titles::{deck_at, deck_end};
