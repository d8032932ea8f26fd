// Directives: from a line to what it asks.
#![tactic(auto)]

mod asks;
mod names;

pub use asks::{directive, line_number};
pub use names::{FieldNames, names_of, next_name};
