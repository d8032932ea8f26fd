// The state of a run, by value beside the lent arrays, and what a line's step answers.
ghost use Rattle.std.specs.Prelude.{◌≡◌, ◌≤◌};
ghost use Rattle.run.specs.Desk.{moved_desk, fitted};

use crate::gap::Gap;
use library::MOST_WORDS;
use run_meaning::Why;

// Where a text line goes.
#[derive(Clone, Copy)]
pub(crate) enum TextAt {
    Nowhere,
    // in YANK$$$, where no text may go
    Yanks,
    // to the gap
    Gap,
}

#[derive(Clone, Copy)]
pub(crate) struct Desk {
    pub(crate) gap: Gap,
    // the cards below it
    pub(crate) low: usize,
    // the entries of the directory, the decks without YANK$$$, all cards
    pub(crate) entries: usize,
    pub(crate) decks: usize,
    pub(crate) cards: usize,
    // the cards of YANK$$$, and their words
    pub(crate) yanks: usize,
    pub(crate) lead: usize,
    // whether the unit is a set, and the number of its next card
    pub(crate) set: bool,
    pub(crate) next: u64,
    pub(crate) place: TextAt,
}

// The words of a library's header with YANK$$$ in the deck list.
pub(crate) const AHEAD: usize = 3;

// The state with the gap at another place of the decks, so many cards below it: text goes there.
pub(crate) fn moved(d: Desk, g: Gap, low: usize) -> Desk
    ensures { result ≡ moved_desk d g low }
{
    Desk {
        gap: g,
        low,
        place: TextAt::Gap,
        ..d
    }
}

// 31: a limit of rows 1, 3 or 5 would be passed.
pub(crate) fn limited(d: Desk) -> Result<Desk, Why>
    requires { (d.gap.hi ≤ 65536) × ((d.gap.lo ≤ 131072) × ((d.entries ≤ 2000) × (d.decks ≤ 2000))) }
    ensures { result ≡ fitted d }
{
    let g = d.gap;
    let words = AHEAD + d.entries + d.decks + g.lo + (MOST_WORDS - g.hi);
    if g.lo <= g.hi && library::within_limits(d.entries, d.decks + 1, d.cards, words) {
        Ok(d)
    } else {
        Err(Why::Limit)
    }
}
