// A library written out where a space has room for it.
#![tactic(auto)]

mod written;

pub use written::write_library;
