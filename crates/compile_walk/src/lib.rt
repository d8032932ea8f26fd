// The walk over decks and calls (RULES, "The compile file"; rows 40 to 44).
#![tactic(auto)]

mod calls;
mod line;
mod walk;

pub use walk::walk_decks;

// Why a compile file is refused: rows 40 to 44 of the table.
#[derive(Clone, Copy, PartialEq, Eq)]
pub enum Stop {
    // a CALL that is malformed, or of no deck
    NoDeck,
    // a CALL of YANK$$$ or of a normal deck
    NotCommon,
    // calls nested deeper than 8
    Deep,
    // a CALL after 4,096 others
    Many,
    // the line does not fit the space
    Space,
}

// How many lines and calls there were so far.
#[derive(Clone, Copy, PartialEq, Eq)]
pub struct Counts {
    pub lines: usize,
    pub calls: usize,
}

// Where a walk is refused: the row, and the card by its owner and number.
#[derive(Clone, Copy, PartialEq, Eq)]
pub struct Halt {
    pub stop: Stop,
    pub owner: u64,
    pub seq: u64,
}
