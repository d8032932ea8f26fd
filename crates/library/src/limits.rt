// The limits of a library by its counts (RULES, "Limits"; rows 1, 3, 5 and 31).
ghost use Rattle.std.specs.Prelude.{◌≡◌};
ghost use Rattle.library.specs.Counts.{within_counts};

use crate::layout::{MOST_CARDS, MOST_DECKS, MOST_ENTRIES, MOST_WORDS};

// Whether a library of so many entries, decks (YANK$$$ among them), cards and words passes no limit of rows 1, 3 and 5 (31).
#[tactic(auto, unfolding(crate::specs::Counts::within_counts))]
pub fn within_limits(entries: usize, decks: usize, cards: usize, words: usize) -> bool
    ensures { result ≡ within_counts entries decks cards words }
{
    entries <= MOST_ENTRIES && decks <= MOST_DECKS && cards <= MOST_CARDS && words <= MOST_WORDS
}
