// DELETE and RESTORE: history bytes added to the cards of a range (RULES, "Corrections").
ghost use Rattle.std.specs.Prelude.{◌+◌, ◌≤◌, ◌<◌, length};
ghost use Rattle.run.specs.GapWords.{Ordered};
ghost use Rattle.run.specs.ByteMarks.{ByteAdded, Marks, Passes, MarksRange};
ghost use Rattle.run.specs.Work.{KeepsOrder, MarksTo};

use crate::card::{is_full, see, with_active};
use crate::gap::{Gap, lower};
use crate::seek::find;
use library::{ACTIVATING, FIELD, LAST, UPPER};
use run_meaning::Why;

// One byte more in the history whose last word is directly below `lo`: it takes a place in that word, or a word of its own.
// Answers where the history ends, which is past `hi` where there is no room.
fn add_byte(w: &mut [u64], lo: usize, hi: usize, byte: u64) -> usize
    requires { (0 < lo) × ((lo ≤ hi) × ((hi ≤ length w.old) × (byte < 262144))) }
    ensures { ByteAdded w.old lo hi byte result w.new }
{
    let l = w[lo - 1];
    if l % FIELD == 0 {
        if l / FIELD % FIELD == 0 {
            w[lo - 1] = l + byte * FIELD;
            return lo;
        }
        w[lo - 1] = l + byte;
        return lo;
    }
    if hi <= lo {
        return lo + 1;
    }
    w[lo - 1] = l % LAST;
    w[lo] = LAST + byte * UPPER;
    lo + 1
}

// The card above the gap comes below it with one byte more, of the set n. Where there is no room, lo passes hi.
fn mark_one(w: &mut [u64], g: Gap, n: u64, on: bool) -> Gap
    requires { Ordered w.old g × ((g.hi < length w.old) × ((length w.old ≤ 65536) × (n < 65536))) }
    ensures hi_in_bounds { (result.hi ≤ length w.old) × (g.hi < result.hi) }
    ensures marks { Marks w.old g n on w.new result }
{
    let lo = g.lo;
    let hi = g.hi;
    let c = see(w, hi);
    let heads = c.heads;
    let count = c.count;
    if w.len() < hi + heads + count {
        return Gap { lo, hi: w.len() };
    }
    lower(w, lo, hi, heads);
    let r = add_byte(w, lo + heads, hi + heads, u64::from(on) * ACTIVATING + n);
    if hi + heads < r {
        return Gap {
            lo: r + count,
            hi: hi + heads + count,
        };
    }
    w[lo] = with_active(w[lo], on);
    lower(w, r, hi + heads, count);
    Gap {
        lo: r + count,
        hi: hi + heads + count,
    }
}

// The card above the gap comes below it, with one byte more where its activity is `was`. Where its history would pass
// 64 bytes, or the words the array, lo passes hi.
fn pass_one(w: &mut [u64], g: Gap, was: bool, n: u64) -> Gap
    requires { Ordered w.old g × ((g.hi < length w.old) × ((length w.old ≤ 65536) × (n < 65536))) }
    ensures hi_in_bounds { (result.hi ≤ length w.old) × (result.lo ≤ result.hi → g.hi < result.hi) }
    ensures passes { Passes w.old g was n w.new result }
{
    let lo = g.lo;
    let hi = g.hi;
    let c = see(w, hi);
    if c.active == was {
        if is_full(w, hi, c.heads) {
            return Gap { lo: hi + 1, hi };
        }
        return mark_one(w, g, n, !was);
    }
    let k = c.heads + c.count;
    if w.len() < hi + k {
        return Gap { lo, hi: w.len() };
    }
    lower(w, lo, hi, k);
    Gap {
        lo: lo + k,
        hi: hi + k,
    }
}

// The cards from the gap up to the word `stop` come below it, each whose activity is `was` with a byte more.
fn mark_range(w: &mut [u64], g: Gap, stop: usize, was: bool, n: u64) -> Gap
    requires { Ordered w.old g × ((stop ≤ length w.old) × ((length w.old ≤ 65536) × (n < 65536))) }
    ensures hi_in_bounds { result.hi ≤ length w.old }
    ensures marks_range { MarksRange w.old g stop was n w.new result }
{
    let mut h = g;
    let mut hi = g.hi;
    // a walk from card to card
    while hi < stop {
        h = pass_one(w, h, was, n);
        hi = h.hi;
        if hi < h.lo {
            return h;
        }
    }
    h
}

// DELETE of what was active and RESTORE of what was not by the set n, over the cards from the gap up to the one with this owner and number: the gap, now directly after
// that card, or why not (28, 31).
pub(crate) fn mark_to(
    w: &mut [u64],
    g: Gap,
    owner: u64,
    seq: u64,
    was: bool,
    n: u64,
) -> Result<Gap, Why>
    requires { Ordered w.old g × ((length w.old ≤ 65536) × (n < 65536)) }
    ensures keeps_order { KeepsOrder w.old result }
    ensures marks_to { MarksTo w.old g owner seq was n w.new result }
{
    let hi = g.hi;
    let end = w.len();
    let b = find(w, hi, end, owner, seq);
    let at = b.at;
    if end <= at {
        return Err(Why::NoCard);
    }
    let c = see(w, at);
    let stop = at + c.heads + c.count;
    if end < stop {
        return Err(Why::NoCard);
    }
    let h = mark_range(w, g, stop, was, n);
    if h.hi < h.lo {
        return Err(Why::Limit);
    }
    Ok(h)
}
