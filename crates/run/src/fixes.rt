// INSERT and BEFORE (RULES, "Corrections").
ghost use Rattle.std.specs.Prelude.{◌≡◌, ◌<◌, length, IfSome};
ghost use Rattle.run.specs.Desk.{Sane, SaneAfter};
ghost use Rattle.library_yanks_bits.specs.SettledBits.{flagged};
ghost use Rattle.run.specs.Corrected.{titled, Within, SeeksCard, SeeksPlace, InsertSteps, BeforeSteps};

use crate::desk::{Desk, moved};
use crate::gap::{open_after, open_ahead};
use crate::seek::locate;
use crate::starts::entry_of;
use run_meaning::Why;
use words_lines::CardName;

// A card as it was sought: its owner's number, the word it begins at, and its index in the stream.
#[derive(Clone, Copy)]
pub(crate) struct Sought {
    pub(crate) own: u64,
    pub(crate) at: usize,
    pub(crate) index: usize,
}

pub(crate) fn seek_card(w: &[u64], dir: &[u64], d: Desk, r: CardName) -> Option<Sought>
    requires { Sane w.now d × (length dir.now ≡ 1024) }
    ensures bounds { IfSome result (λ f. Within w.now d f) }
    ensures seeks_card { SeeksCard w.now dir.now d r result }
{
    let own = entry_of(&dir[..d.entries], r.name) as u64;
    if own == 0 {
        return None;
    }
    let p = locate(w, d.gap, d.low, own, r.seq);
    if d.cards <= p.index {
        return None;
    }
    Some(Sought {
        own,
        at: p.at,
        index: p.index,
    })
}

// The card of an INSERT or a BEFORE: in a set, and not in YANK$$$.
fn seek_place(w: &[u64], dir: &[u64], d: Desk, r: CardName) -> Result<Sought, Why>
    requires { Sane w.now d × (length dir.now ≡ 1024) }
    ensures { SeeksPlace w.now dir.now d r result }
{
    if !d.set {
        return Err(Why::Nowhere);
    }
    let f = seek_card(w, dir, d, r).ok_or(Why::NoCard)?;
    if f.index < d.yanks {
        return Err(Why::Barred);
    }
    Ok(f)
}

// INSERT: the gap is placed after the card.
pub(crate) fn insert_step(w: &mut [u64], dir: &[u64], d: Desk, r: CardName) -> Result<Desk, Why>
    requires { Sane w.old d × (length dir.now ≡ 1024) }
    ensures sane_after { SaneAfter w.new result }
    ensures insert_steps { InsertSteps w.old dir.now d r w.new result }
{
    let f = seek_place(w, dir, d, r)?;
    let h = open_after(w, d.gap, f.at);
    Ok(moved(d, h, f.index + 1))
}

// Whether flag n is there and not 0.
fn is_flagged(flags: &[u64], n: usize) -> bool
    ensures { result ≡ flagged flags.now n }
{
    n < flags.len() && flags[n] != 0
}

// Whether a deck's card has this owner and number: flag n is not 0 where n is a deck's.
pub(crate) fn is_title(decks: &[u64], own: u64, seq: u64) -> bool
    ensures { result ≡ titled decks.now own seq }
{
    seq == 1 && is_flagged(decks, own as usize)
}

// BEFORE: the gap goes directly ahead of the card, which is no deck card.
pub(crate) fn before_step(
    w: &mut [u64],
    dir: &[u64],
    decks: &[u64],
    d: Desk,
    r: CardName,
) -> Result<Desk, Why>
    requires { Sane w.old d × ((length dir.now ≡ 1024) × (1024 < length decks.now)) }
    ensures sane_after { SaneAfter w.new result }
    ensures before_steps { BeforeSteps w.old dir.now decks.now d r w.new result }
{
    let f = seek_place(w, dir, d, r)?;
    if is_title(decks, f.own, r.seq) {
        return Err(Why::Barred);
    }
    let h = open_ahead(w, d.gap, f.at);
    Ok(moved(d, h, f.index))
}
