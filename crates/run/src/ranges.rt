// DELETE and RESTORE (RULES, "Corrections"): the range is sought, tested for deck cards, and marked; where it is in YANK$$$, all bits are settled again.
ghost use Rattle.std.specs.Prelude.{◌≡◌, ◌≤◌, ◌<◌, length, IfSome, Some};
ghost use Rattle.run.specs.GapWords.{Ordered};
ghost use Rattle.run.specs.Desk.{Sane, SaneAfter};
ghost use Rattle.run.specs.Corrected.{Within, SeeksCard};
ghost use Rattle.run.specs.Resettled.{MarkSteps};
ghost use Rattle.run.specs.RangeSteps.{HasTitle, LeadAfter, YankMarks, GoesOn, MarksFound};

use crate::card::see;
use crate::desk::{Desk, TextAt, limited, moved};
use crate::fixes::{Sought, is_title, seek_card};
use crate::gap::{Gap, open_ahead, open_at};
use crate::marks::mark_to;
use crate::yanks::resettle;
use run_meaning::Why;
use words_lines::CardName;

// Whether one of the n cards from `from` on is a deck card.
fn has_title(w: &[u64], decks: &[u64], from: usize, n: usize) -> bool
    requires { (from ≤ length w.now) × (length w.now ≤ 65536) }
    ensures { HasTitle w.now decks.now from n result }
{
    let mut at = from;
    for _ in 0..n {
        if w.len() <= at {
            return false;
        }
        let c = see(w, at);
        if is_title(decks, c.owner, c.seq) {
            return true;
        }
        at = at + c.heads + c.count;
    }
    false
}

// The words of YANK$$$ after its cards were marked: all words but those of the decks, which are as many as before.
fn lead_after(end: usize, d: Desk, h: Gap) -> usize
    requires { (d.gap.lo ≤ d.gap.hi) × ((d.gap.hi ≤ end) × ((h.lo ≤ h.hi) × ((h.hi ≤ end) × (end ≤ 65536)))) }
    ensures upper_bound { result ≤ 65536 }
    ensures lead_after { LeadAfter end d h result }
{
    let g = d.gap;
    let lead = d.lead;
    let before = g.lo + (end - g.hi);
    let after = h.lo + (end - h.hi);
    if before < lead {
        return 0;
    }
    let rest = before - lead;
    if after < rest {
        return 0;
    }
    after - rest
}

// A range of YANK$$$ is marked, and h is the gap after that: all of YANK$$$ comes below the gap, and the bits are settled.
fn yank_marked(w: &mut [u64], dir: &[u64], flags: &mut [u64], d: Desk, h: Gap) -> Result<Desk, Why>
    requires { Sane w.old d × (Ordered w.old h × ((length dir.now ≡ 1024) × (1024 < length flags.old))) }
    ensures sane_after { SaneAfter w.new result }
    ensures yank_marks { YankMarks w.old dir.now d h w.new flags.new result }
{
    let n = lead_after(w.len(), d, h);
    let m = open_at(w, h, n);
    let e = limited(Desk {
        gap: m,
        low: d.yanks,
        lead: m.lo,
        place: TextAt::Yanks,
        ..d
    })?;
    resettle(w, dir, flags, e);
    Ok(e)
}

// A range is marked, and k is the gap after that: text goes there, or the range is one of YANK$$$.
fn range_marked(
    w: &mut [u64],
    dir: &[u64],
    flags: &mut [u64],
    d: Desk,
    first: usize,
    last: usize,
    k: Gap,
) -> Result<Desk, Why>
    requires { Sane w.old d × (Ordered w.old k × ((length dir.now ≡ 1024) × ((1024 < length flags.old) × (last < d.cards)))) }
    ensures sane_after { SaneAfter w.new result }
    ensures goes_on { GoesOn w.old dir.now flags.old d first last k w.new flags.new result }
{
    if first < d.yanks {
        return yank_marked(w, dir, flags, d, k);
    }
    limited(moved(d, k, last + 1))
}

// The range from the card f to the card l, which has the number seq: 30 where it has a deck card, else its cards are marked.
fn mark_found(
    w: &mut [u64],
    dir: &[u64],
    decks: &[u64],
    flags: &mut [u64],
    d: Desk,
    was: bool,
    f: Sought,
    l: Sought,
    seq: u64,
) -> Result<Desk, Why>
    requires { Sane w.old d × ((length dir.now ≡ 1024) × ((1024 < length flags.old) × ((f.index ≤ l.index) × (l.index < d.cards)))) }
    ensures sane_after { SaneAfter w.new result }
    ensures marks_found { MarksFound w.old dir.now decks.now flags.old d was f l seq w.new flags.new result }
{
    let g = d.gap;
    let h = open_ahead(w, g, f.at);
    if has_title(w, decks, h.hi, l.index - f.index + 1) {
        return Err(Why::Barred);
    }
    let k = mark_to(w, h, l.own, seq, was, d.entries as u64)?;
    range_marked(w, dir, flags, d, f.index, l.index, k)
}

// The last card of a range whose first is f. `*DELETE X.n` names one card for both, and that one is not sought again.
fn seek_last(w: &[u64], dir: &[u64], d: Desk, a: CardName, f: Sought, b: CardName) -> Option<Sought>
    requires sane { Sane w.now d × ((length dir.now ≡ 1024) × Within w.now d f) }
    requires seeks_card { SeeksCard w.now dir.now d a (Some f) }
    ensures bounds { IfSome result (λ l. Within w.now d l) }
    ensures seeks_card_2 { SeeksCard w.now dir.now d b result }
{
    if a.seq == b.seq && a.name == b.name {
        return Some(f);
    }
    seek_card(w, dir, d, b)
}

// DELETE of what was active, RESTORE of what was not.
pub(crate) fn mark_step(
    w: &mut [u64],
    dir: &[u64],
    decks: &[u64],
    flags: &mut [u64],
    d: Desk,
    was: bool,
    a: CardName,
    b: CardName,
) -> Result<Desk, Why>
    requires { Sane w.old d × ((length dir.now ≡ 1024) × ((1024 < length decks.now) × (1024 < length flags.old))) }
    ensures sane_after { SaneAfter w.new result }
    ensures mark_steps { MarkSteps w.old dir.now decks.now flags.old d was a b w.new flags.new result }
{
    if !d.set {
        return Err(Why::Nowhere);
    }
    let f = seek_card(w, dir, d, a).ok_or(Why::NoCard)?;
    let l = seek_last(w, dir, d, a, f, b).ok_or(Why::NoCard)?;
    if l.index < f.index {
        return Err(Why::Backwards);
    }
    mark_found(w, dir, decks, flags, d, was, f, l, b.seq)
}
