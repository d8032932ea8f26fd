// What the keeper of libraries is shown: a directory.
#![tactic(auto)]

mod entry_rows;
mod kinds;

pub use entry_rows::directory;
