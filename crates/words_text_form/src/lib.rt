// The one right form of a text: whether words are the words of a line.
#![tactic(auto)]

mod form;

pub use form::{COLUMNS, is_text};
