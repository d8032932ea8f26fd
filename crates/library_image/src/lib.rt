// An image read as it stands, whatever its words: its cards and their lines.
#![tactic(auto)]

mod cards;

pub use cards::{COLUMNS, least, line_of, see, star_at, word_at};
