// The starts of units (RULES, "Units"): DECK, COMDECK and IDENT.
ghost use Rattle.std.specs.Prelude.{◌≡◌, ◌≤◌, ◌<◌, length, take};
ghost use Rattle.library.specs.Library.{entry_of};
ghost use Rattle.run.specs.Obeyed.{StaysSane, IdentSteps, DeckSteps};
ghost use Rattle.run.specs.Desk.{Sane, SaneAfter};
ghost use Rattle.run.specs.YankNames.{unknown_in};

use crate::desk::{Desk, TextAt, limited};
use crate::gap::open_ahead;
use crate::texts::put_line;
use run_meaning::Why;

// The number of a name in the directory; 0 where it is not there.
pub(crate) fn entry_of(directory: &[u64], w: u64) -> usize
    ensures upper_bound { result ≤ length directory.now }
    ensures value { result ≡ entry_of directory.now w }
{
    library_index::entry_of(directory, w)
}

// Whether a name is not known, by the directory: YANK$$$ always is.
pub(crate) fn is_unknown(directory: &[u64], w: u64) -> bool
    ensures { result ≡ unknown_in directory.now w }
{
    w != library::reserved_word() && entry_of(directory, w) == 0
}

// IDENT: a set begins, and text goes nowhere yet.
pub(crate) fn ident_step(dir: &mut [u64], d: Desk, word: u64) -> Result<Desk, Why>
    requires { (length dir.old ≡ 1024) × ((d.entries ≤ 1023) × ((d.decks ≤ 254) × ((d.gap.lo ≤ 65536) × (d.gap.hi ≤ 65536)))) }
    ensures stays_sane { StaysSane d result }
    ensures ident_steps { IdentSteps dir.old d word dir.new result }
{
    let n = d.entries;
    if !is_unknown(&dir[..n], word) {
        return Err(Why::Known);
    }
    dir[n] = word;
    limited(Desk {
        entries: n + 1,
        set: true,
        next: 1,
        place: TextAt::Nowhere,
        ..d
    })
}

// DECK and COMDECK: a deck begins at the library's end, with its deck card, and text goes after that.
pub(crate) fn deck_step(
    w: &mut [u64],
    dir: &mut [u64],
    names: &mut [u64],
    decks: &mut [u64],
    d: Desk,
    word: u64,
    line: &[u8],
) -> Result<Desk, Why>
    requires { Sane w.old d × ((1023 < length dir.old) × ((255 < length names.old) × (1024 < length decks.old))) }
    ensures sane_after { SaneAfter w.new result }
    ensures deck_steps { DeckSteps w.old dir.old names.old decks.old d word line.now w.new dir.new names.new decks.new result }
{
    let n = d.entries;
    let k = d.decks + 1;
    if !is_unknown(&dir[..n], word) {
        return Err(Why::Known);
    }
    let g = d.gap;
    let end = w.len();
    let m = open_ahead(w, g, end);
    let h = put_line(w, m, line, 1, (n + 1) as u64);
    dir[n] = word;
    names[k] = word;
    decks[n + 1] = 1;
    limited(Desk {
        gap: h,
        low: d.cards + 1,
        entries: n + 1,
        decks: k,
        cards: d.cards + 1,
        set: false,
        next: 2,
        place: TextAt::Gap,
        ..d
    })
}
