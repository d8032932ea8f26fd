// YANK (RULES, "Corrections"): its line becomes the last card of YANK$$$; and the bits that change with YANK$$$.
ghost use Rattle.std.specs.Prelude.{◌≡◌, ◌≤◌, ◌<◌, length};
ghost use Rattle.words.specs.Base.{any};
ghost use Rattle.run.specs.Desk.{Sane, SaneAfter};
ghost use Rattle.run.specs.Resettled.{Resettled, YankSteps};
ghost use Rattle.run.specs.YankNames.{names_in, unknown_in, no_set_in, LeadAfter, PutsYank};

use crate::desk::{Desk, TextAt, limited};
use crate::gap::open_at;
use crate::settle::settle_all;
use crate::starts::{entry_of, is_unknown};
use crate::texts::put_line;
use run_meaning::Why;

// 27 of one name: a deck's, YANK$$$, or that of the set itself, which is the directory's last.
fn is_no_set(directory: &[u64], list: &[u64], w: u64) -> bool
    ensures { result ≡ no_set_in (length directory.now) directory.now list.now w }
{
    words_lists::stands(list, w) || entry_of(directory, w) == directory.len()
}

// 26 over a whole field of names.
fn any_unknown(directory: &[u64], field: &[u8]) -> bool
    ensures { result ≡ any (unknown_in directory.now) (names_in field.now) }
{
    words_lines_asked::names_of(field).any(|w| is_unknown(directory, w))
}

// 27 over a whole field of names.
fn any_no_set(directory: &[u64], list: &[u64], field: &[u8]) -> bool
    ensures { result ≡ any (no_set_in (length directory.now) directory.now list.now) (names_in field.now) }
{
    words_lines_asked::names_of(field).any(|w| is_no_set(directory, list, w))
}

// The line as a card at the end of YANK$$$, under the flags of before; text then goes nowhere.
fn put_yank(w: &mut [u64], d: Desk, line: &[u8]) -> Result<Desk, Why>
    requires { Sane w.old d }
    ensures sane_after { SaneAfter w.new result × LeadAfter result }
    ensures puts_yank { PutsYank w.old d line.now w.new result }
{
    // never so of a library in work: YANK$$$ has no more words than the array
    if w.len() < d.lead {
        return Err(Why::Limit);
    }
    let next = run_meaning::number_after(d.next);
    let g = d.gap;
    let m = open_at(w, g, d.lead);
    let h = put_line(w, m, line, d.next, d.entries as u64);
    limited(Desk {
        gap: h,
        low: d.yanks + 1,
        cards: d.cards + 1,
        yanks: d.yanks + 1,
        lead: h.lo,
        next,
        place: TextAt::Nowhere,
        ..d
    })
}

// All bits, under the flags of the yanked sets, which are settled anew from the words of YANK$$$, all of them below the gap.
pub(crate) fn resettle(w: &mut [u64], dir: &[u64], flags: &mut [u64], d: Desk)
    requires { Sane w.old d × ((d.lead ≤ d.gap.lo) × ((length dir.now ≡ 1024) × (1024 < length flags.old))) }
    ensures { Resettled w.old dir.now d w.new flags.new }
{
    let n = d.entries;
    let lead = d.lead;
    library_yanks::settle(&dir[..n], &w[..lead], flags);
    flags[0] = 0;
    let g = d.gap;
    settle_all(w, g, flags);
}

// YANK of sets.
pub(crate) fn yank_step(
    w: &mut [u64],
    dir: &[u64],
    names: &[u64],
    flags: &mut [u64],
    d: Desk,
    line: &[u8],
) -> Result<Desk, Why>
    requires { Sane w.old d × ((length dir.now ≡ 1024) × ((255 < length names.now) × (1024 < length flags.old))) }
    ensures sane_after { SaneAfter w.new result }
    ensures yank_steps { YankSteps w.old dir.now names.now flags.old d line.now w.new flags.new result }
{
    if !d.set {
        return Err(Why::Nowhere);
    }
    let directory = &dir[..d.entries];
    let list = &names[..d.decks + 1];
    let field = words_lines::field_of(line);
    if any_unknown(directory, field) {
        return Err(Why::Unknown);
    }
    if any_no_set(directory, list, field) {
        return Err(Why::NoSet);
    }
    let e = put_yank(w, d, line)?;
    resettle(w, dir, flags, e);
    Ok(e)
}
