// Keys in a list, and the first that stands twice.
#![tactic(auto)]

mod slots;
mod tree;
mod twice;

pub use twice::first_twice;
