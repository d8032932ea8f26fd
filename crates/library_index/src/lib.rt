// The numbers of a directory's names: by a walk of its entries, or by a tree of its names.
#![tactic(auto)]

mod index;
mod names;
mod search;

pub use index::Index;
pub use names::{ALL_WAYS, entry_by, plant};
pub use search::entry_of;
