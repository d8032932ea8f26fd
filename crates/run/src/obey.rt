// One line of a stream (RULES, "The run"): what it asks is done, or it is refused.
ghost use Rattle.std.specs.Prelude.{◌≡◌, ◌<◌, length};
ghost use Rattle.run.specs.Desk.{Sane, SaneAfter};
ghost use Rattle.run.specs.Streamed.{in_arrays};
ghost use Rattle.run.specs.Resettled.{CorrectsLine, ObeysLine};

use crate::desk::Desk;
use crate::fixes::{before_step, insert_step};
use crate::ranges::mark_step;
use crate::starts::{deck_step, ident_step};
use crate::texts::text_step;
use crate::yanks::yank_step;
use run_meaning::Why;
use words_lines::Line;

// A correction, or a line that is refused for what it is: of the arrays only the cards' words and the flags change.
fn correct_line(
    w: &mut [u64],
    dir: &[u64],
    names: &[u64],
    decks: &[u64],
    flags: &mut [u64],
    d: Desk,
    line: &[u8],
    asked: Line,
) -> Result<Desk, Why>
    requires { Sane w.old d × ((length dir.now ≡ 1024) × ((255 < length names.now) × ((1024 < length decks.now) × (1024 < length flags.old)))) }
    ensures sane_after { SaneAfter w.new result }
    ensures corrects_line { CorrectsLine (in_arrays w.old dir.now names.now decks.now flags.old) d line.now asked (in_arrays w.new dir.now names.now decks.now flags.new) result }
{
    match asked {
        Line::Insert(r) => insert_step(w, dir, d, r),
        Line::Before(r) => before_step(w, dir, decks, d, r),
        Line::Delete(a, b) => mark_step(w, dir, decks, flags, d, true, a, b),
        Line::Restore(a, b) => mark_step(w, dir, decks, flags, d, false, a, b),
        Line::Yank => yank_step(w, dir, names, flags, d, line),
        Line::Outside => Err(Why::Outside),
        Line::Long => Err(Why::Long),
        Line::Malformed => Err(Why::Malformed),
        _ => Err(Why::NotCarried),
    }
}

pub(crate) fn obey_line(
    w: &mut [u64],
    dir: &mut [u64],
    names: &mut [u64],
    decks: &mut [u64],
    flags: &mut [u64],
    d: Desk,
    line: &[u8],
) -> Result<Desk, Why>
    requires { Sane w.old d × ((length dir.old ≡ 1024) × ((255 < length names.old) × ((1024 < length decks.old) × (1024 < length flags.old)))) }
    ensures sane_after { SaneAfter w.new result }
    ensures obeys_line { ObeysLine (in_arrays w.old dir.old names.old decks.old flags.old) d line.now (in_arrays w.new dir.new names.new decks.new flags.new) result }
{
    let asked = words_lines_asked::directive(line);
    match asked {
        Line::Text => text_step(w, d, line),
        Line::Skipped => Ok(d),
        Line::Deck(word) | Line::Comdeck(word) => deck_step(w, dir, names, decks, d, word, line),
        Line::Ident(word) => ident_step(dir, d, word),
        _ => correct_line(w, dir, names, decks, flags, d, line, asked),
    }
}
