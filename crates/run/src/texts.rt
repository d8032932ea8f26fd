// Text lines (RULES, "Units"): each adds one card at the gap.
ghost use Rattle.std.specs.Prelude.{◌≤◌, ◌<◌, length};
ghost use Rattle.run.specs.GapWords.{Ordered};
ghost use Rattle.run.specs.Desk.{Sane, SaneAfter};
ghost use Rattle.run.specs.Obeyed.{PutsLine, TextSteps};

use crate::desk::{Desk, TextAt, limited};
use crate::gap::Gap;
use crate::put::put_card;
use run_meaning::Why;

// A new card at the gap with the line's text. Where its words do not fit, lo passes hi.
pub(crate) fn put_line(w: &mut [u64], g: Gap, line: &[u8], seq: u64, n: u64) -> Gap
    requires { Ordered w.old g × ((length w.old ≤ 65536) × ((seq < 262144) × (n < 65536))) }
    ensures hi_in_bounds { (result.hi ≤ length w.old) × (result.lo ≤ 131072) }
    ensures puts_line { PutsLine w.old g line.now seq n w.new result }
{
    let mut text = [0u64; 16];
    match words_text_compress::compress(line, &mut text) {
        Ok(k) => put_card(w, g, &text, k, seq, n),
        Err(_) => g,
    }
}

// A text line: a card of the unit where text goes, ahead of what is there.
pub(crate) fn text_step(w: &mut [u64], d: Desk, line: &[u8]) -> Result<Desk, Why>
    requires { Sane w.old d }
    ensures sane_after { SaneAfter w.new result }
    ensures text_steps { TextSteps w.old d line.now w.new result }
{
    let place = d.place;
    let g = d.gap;
    match place {
        TextAt::Nowhere => Err(Why::Nowhere),
        TextAt::Yanks => Err(Why::Barred),
        TextAt::Gap => {
            let next = run_meaning::number_after(d.next);
            let h = put_line(w, g, line, d.next, d.entries as u64);
            limited(Desk {
                gap: h,
                low: d.low + 1,
                cards: d.cards + 1,
                next,
                place: TextAt::Gap,
                ..d
            })
        }
    }
}
