// What the keeper of libraries is told: the name of a card, and the answers of what is shown.
#![tactic(auto)]

ghost use Rattle.std.specs.Prelude.{◌≡◌};
ghost use Rattle.keeper_card.specs.Naming.{told_number, told_value};
ghost use Rattle.keeper_card.specs.declared.ShowRefused.TheVariants.{Library as OfLibrary};

mod bytes;
mod cards;
mod entry_words;

pub use cards::card;
use library::Refusal;

// rows of the table
const DONE: u64 = 0;

const NO_FIT: u64 = 53;

// Why nothing is shown: the library is refused, or the result does not fit the space.
#[derive(Clone, Copy, PartialEq, Eq)]
pub enum ShowRefused {
    Library(Refusal),
    Space,
}

impl From<Refusal> for ShowRefused {
    ghost from_gives = { λ r e. e ≡ OfLibrary r };

    fn from(r: Refusal) -> ShowRefused {
        ShowRefused::Library(r)
    }
}

// The table's number of an answer; 0 where something is shown.
pub fn told_number(t: Result<usize, ShowRefused>) -> u64
    ensures { result ≡ told_number t }
{
    match t {
        Ok(_) => DONE,
        Err(ShowRefused::Library(refusal)) => library::fault_number(refusal.fault),
        Err(ShowRefused::Space) => NO_FIT,
    }
}

// The count of entries or of bytes, or the place in the library, or 0.
pub fn told_value(t: Result<usize, ShowRefused>) -> u64
    ensures { result ≡ told_value t }
{
    match t {
        Ok(n) => n as u64,
        Err(ShowRefused::Library(refusal)) => refusal.place as u64,
        Err(ShowRefused::Space) => 0,
    }
}
