// The yanked sets of an image, whatever its words: their flags, the cards that are active under them.
#![tactic(auto)]

mod flags;
mod force;
mod marks;

pub use flags::settle;
pub use force::{is_active, is_flagged};
