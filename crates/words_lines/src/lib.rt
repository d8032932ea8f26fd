// Lines and their parts: from bytes to a directive's name and parameters.
#![tactic(auto)]

mod calls;
mod kinds;
mod parts;
mod scan;
mod stream;

pub use calls::call_of;
pub use kinds::kind_of_line;
pub use parts::{field_of, is_clean};
pub use scan::{part_after, part_at};
pub use stream::line_at;

// What a directive's name asks for.
#[derive(Clone, Copy, PartialEq, Eq)]
pub enum Kind {
    Text,
    Skipped,
    NotCarried,
    Deck,
    Comdeck,
    Ident,
    Insert,
    Before,
    Delete,
    Restore,
    Yank,
}

// A card as a directive names it: its owner's name as a directory word, and its number.
#[derive(Clone, Copy, PartialEq, Eq)]
pub struct CardName {
    pub name: u64,
    pub seq: u64,
}

// What a line of a stream, or of a card, says.
#[derive(Clone, Copy, PartialEq, Eq)]
pub enum Line {
    Text,
    Skipped,
    Deck(u64),
    Comdeck(u64),
    Ident(u64),
    Insert(CardName),
    Before(CardName),
    Delete(CardName, CardName),
    Restore(CardName, CardName),
    Yank,
    // a byte that is no character
    Outside,
    // over 80 columns
    Long,
    // the directive's form
    Malformed,
    // a directive that is not carried
    NotCarried,
}

// What a card says when the compile file is written: three answers, so neither an Option nor a Result.
#[derive(Clone, Copy, PartialEq, Eq)]
pub enum Call {
    Not,
    Of(u64),
    Malformed,
}

// What stands at a place of a field of names: a name's word, 0 where it is no name, and the next place.
#[derive(Clone, Copy, PartialEq, Eq)]
pub struct NameAt {
    pub word: u64,
    pub next: usize,
}

// What a search stops at. An enum: the definition `stops_at` has these tests, and a caller proves nothing about a closure.
#[derive(Clone, Copy, PartialEq, Eq)]
pub enum Stop {
    // a line's end
    Line,
    // what ends a directive's name
    Name,
    // what parts parameters
    Parameter,
    // what ends parameters
    Blank,
    // the end of a run of blanks
    NonBlank,
    // what parts a card's name and its number
    Point,
}
