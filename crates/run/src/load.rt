// A library that the check accepted is taken up: its tables and its cards are copied, the decks' numbers flagged, the cards counted.
ghost use Rattle.std.specs.Prelude.{◌≡◌, ◌+◌, ◌-◌, ◌≤◌, ◌<◌, ◌++◌, length, take, drop};
ghost use Rattle.run.specs.Desk.{Sane};
ghost use Rattle.library.specs.Readable.{Readable};
ghost use Rattle.run.specs.Loaded.{FlagsDecks, FindsTitle, Loads};

use crate::card::see;
use crate::desk::{Desk, TextAt};
use crate::fixes::is_title;
use crate::gap::Gap;
use crate::seek::{Place, find};
use crate::starts::entry_of;
use library::{FIELD, MOST_WORDS};

// The numbers of a deck list's names after the first: YANK$$$ has none.
fn flag_decks(directory: &[u64], list: &[u64], flags: &mut [u64])
    requires { (length directory.now < length flags.old) × (0 < length list.now) }
    ensures { FlagsDecks directory.now list.now flags.new }
{
    words_lists::clear(flags);
    for name in &list[1..] {
        let e = entry_of(directory, *name);
        flags[e] = 1;
    }
}

// The first deck card: YANK$$$ is ahead of it.
fn first_title(w: &[u64], to: usize, decks: &[u64]) -> Place
    requires { (to ≤ length w.now) × (length w.now ≤ 65536) }
    ensures at_le_to { (result.at ≤ to) × (result.index ≤ 400000) }
    ensures finds_title { FindsTitle w.now to decks.now result }
{
    let mut at: usize = 0;
    let mut i: usize = 0;
    // a walk from card to card
    while at < to {
        let c = see(w, at);
        let heads = c.heads;
        let count = c.count;
        if is_title(decks, c.owner, c.seq) {
            return Place { at, index: i };
        }
        at = at + heads + count;
        i += 1;
    }
    Place { at: to, index: i }
}

// The words of an image with n entries and k decks: the directory, the deck list, the cards.
fn load_words(old: &[u64], n: usize, k: usize, w: &mut [u64], dir: &mut [u64], names: &mut [u64])
    requires { (2 + n + k ≤ length old.now) × ((length old.now ≤ length w.old) × ((n ≤ length dir.old) × (k ≤ length names.old))) }
    ensures w_after { w.new ≡ drop (2 + n + k) old.now ++ drop (length old.now - (2 + n + k)) w.old }
    ensures dir_after { dir.new ≡ take n (drop 2 old.now) ++ drop n dir.old }
    ensures names_after { names.new ≡ take k (drop (2 + n) old.now) ++ drop k names.old }
{
    let at = 2 + n;
    let end = at + k;
    words_lists::put(&old[2..at], dir, 0);
    words_lists::put(&old[at..end], names, 0);
    words_lists::put(&old[end..], w, 0);
}

// The library in work at the start of a run: the gap is behind the cards, no unit has begun, and text goes nowhere.
pub(crate) fn load(
    old: &[u64],
    w: &mut [u64],
    dir: &mut [u64],
    names: &mut [u64],
    decks: &mut [u64],
) -> Desk
    requires { Readable old.now × ((length w.old ≡ 65536) × ((length dir.old ≡ 1024) × ((255 < length names.old) × (1024 < length decks.old)))) }
    ensures sane { Sane w.new result × (result.lead ≤ result.gap.lo) }
    ensures loads { Loads old.now w.new dir.new names.new decks.new result }
{
    let counts = old[1];
    let n = (counts / FIELD) as usize;
    let k = (counts % FIELD) as usize;
    let lo = old.len() - (2 + n + k);
    load_words(old, n, k, w, dir, names);
    flag_decks(&dir[..n], &names[..k], decks);
    let t = first_title(w, lo, decks);
    let c = find(w, 0, lo, 0, 0);
    Desk {
        gap: Gap { lo, hi: MOST_WORDS },
        low: c.index,
        entries: n,
        decks: k - 1,
        cards: c.index,
        yanks: t.index,
        lead: t.at,
        set: false,
        next: 0,
        place: TextAt::Nowhere,
    }
}
