// Lists of words and of bytes: searched, cleared, put over others.
#![tactic(auto)]

mod lists;

pub use lists::{clear, put, stands};
