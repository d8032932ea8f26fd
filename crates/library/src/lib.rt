// Libraries: what they are, how they are written in words, when an image is one, and what the check of an image answers.
#![tactic(auto)]

ghost use Rattle.std.specs.Prelude.{◌≡◌};
ghost use Rattle.library.specs.Check.{fault_number, checked_number, checked_place};
ghost use Rattle.library.specs.Refused.{refused_at};

mod asks;
mod fixed;
mod layout;
mod limits;

pub use asks::asks_yank;
pub use fixed::{header_word, reserved_word};
pub use layout::{
    ABOVE_BYTES, ACTIVATING, ACTIVE, COUNTS, DIRECTORY, FIELD, LAST, MOST_CARDS, MOST_DECKS,
    MOST_ENTRIES, MOST_HEADS, MOST_WORDS, NUMBER, PURGED, UPPER, YANKED,
};
pub use limits::within_limits;

// Why an image is no library: rows 1 to 10 of the table.
#[derive(Clone, Copy, PartialEq, Eq)]
pub enum Fault {
    // too few words or too many, or a number that is no word
    Size,
    // the first word
    Header,
    // the counts of the second word, and the tables
    Tables,
    // a name in the directory or the deck list
    Name,
    // a card's form
    Form,
    // a card's text
    Text,
    // deck cards against the deck list
    Decks,
    // a card of YANK$$$
    Yank,
    // a stored yank or activity bit
    Bit,
    // an identifier twice
    Twice,
}

// A refusal of the check: the fault and the word where it stands.
#[derive(Clone, Copy, PartialEq, Eq)]
pub struct Refusal {
    pub fault: Fault,
    pub place: usize,
}

// What is seen of a card: where its text starts and ends, its owner and number, whether its bit says active.
#[derive(Clone, Copy, PartialEq, Eq)]
pub struct Seen {
    pub text: usize,
    pub next: usize,
    pub owner: u64,
    pub seq: u64,
    pub active: bool,
}

// A line as a deck card's: none, one of wrong form, or that of a normal or common deck of this name.
#[derive(Clone, Copy, PartialEq, Eq)]
pub enum DeckLine {
    NotDeck,
    BadDeck,
    Deck(u64),
    Common(u64),
}

// The table's number of a fault.
pub fn fault_number(fault: Fault) -> u64
    ensures { result ≡ fault_number fault }
{
    match fault {
        Fault::Size => 1,
        Fault::Header => 2,
        Fault::Tables => 3,
        Fault::Name => 4,
        Fault::Form => 5,
        Fault::Text => 6,
        Fault::Decks => 7,
        Fault::Yank => 8,
        Fault::Bit => 9,
        Fault::Twice => 10,
    }
}

// What a row answers whose fault stands at a place, or nowhere.
pub fn refuse(fault: Fault, place: Option<usize>) -> Result<(), Refusal>
    ensures { result ≡ refused_at fault place }
{
    match place {
        Some(place) => Err(Refusal { fault, place }),
        None => Ok(()),
    }
}

// The table's number of what the check answers; 0 where it accepts.
pub fn checked_number(c: Result<(), Refusal>) -> u64
    ensures { result ≡ checked_number c }
{
    match c {
        Ok(()) => 0,
        Err(r) => fault_number(r.fault),
    }
}

// The place of a refusal, or 0.
pub fn checked_place(c: Result<(), Refusal>) -> u64
    ensures { result ≡ checked_place c }
{
    match c {
        Ok(()) => 0,
        Err(r) => r.place as u64,
    }
}
