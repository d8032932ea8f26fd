// Names as words and back, numbers read and written.
#![tactic(auto)]

mod names;

pub use names::{name_of_word, number_read, put_number, word_of_name};
