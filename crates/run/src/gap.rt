// The gap of the library in work: moving it, and placing it at a card.
ghost use Rattle.std.specs.Prelude.{◌+◌, ◌-◌, ◌≤◌, ◌<◌, length};
ghost use Rattle.run.specs.GapWords.{Ordered, Lowered, Raised, Moves};
ghost use Rattle.run.specs.Work.{OpensAfter, OpensAhead, OpensAt};

use crate::card::see;

// The words of cards stand below `lo`, and from `hi` to the array's end. `hi` below `lo` says that there is no room:
// `limited` tests that with the other limits of 31, after all that a line changes.
#[derive(Clone, Copy)]
pub(crate) struct Gap {
    pub(crate) lo: usize,
    pub(crate) hi: usize,
}

// n words from above the gap come below it.
pub(crate) fn lower(w: &mut [u64], lo: usize, hi: usize, n: usize)
    requires { (lo ≤ hi) × (hi + n ≤ length w.old) }
    ensures { Lowered w.old lo hi n w.new }
{
    w.copy_within(hi..hi + n, lo);
}

// n words from below the gap go above it.
fn raise(w: &mut [u64], lo: usize, hi: usize, n: usize)
    requires { (n ≤ lo) × ((lo ≤ hi) × (hi ≤ length w.old)) }
    ensures { Raised w.old lo hi n w.new }
{
    w.copy_within(lo - n..lo, hi - n);
}

// The gap is moved to the word p: below `lo`, or from `hi` on.
fn move_to(w: &mut [u64], g: Gap, p: usize) -> Gap
    requires { Ordered w.old g × (length w.old ≤ 65536) }
    ensures ordered { Ordered w.old result }
    ensures moves { Moves w.old g p w.new result }
{
    let lo = g.lo;
    let hi = g.hi;
    if p <= lo {
        raise(w, lo, hi, lo - p);
        return Gap {
            lo: p,
            hi: hi - (lo - p),
        };
    }
    if p < hi {
        return g;
    }
    if w.len() < p {
        return g;
    }
    lower(w, lo, hi, p - hi);
    Gap {
        lo: lo + (p - hi),
        hi: p,
    }
}

// BEFORE: the gap is moved directly ahead of the card at `at`.
pub(crate) fn open_ahead(w: &mut [u64], g: Gap, at: usize) -> Gap
    requires { Ordered w.old g × (length w.old ≤ 65536) }
    ensures ordered { Ordered w.old result }
    ensures opens_ahead { OpensAhead w.old g at w.new result }
{
    move_to(w, g, at)
}

// INSERT: the gap is moved directly after the card at `at`.
pub(crate) fn open_after(w: &mut [u64], g: Gap, at: usize) -> Gap
    requires { Ordered w.old g × (length w.old ≤ 65536) }
    ensures ordered { Ordered w.old result }
    ensures opens_after { OpensAfter w.old g at w.new result }
{
    if w.len() <= at {
        return g;
    }
    let c = see(w, at);
    let next = at + c.heads + c.count;
    move_to(w, g, next)
}

// The gap is moved to where n words of cards come before it.
pub(crate) fn open_at(w: &mut [u64], g: Gap, n: usize) -> Gap
    requires { Ordered w.old g × ((length w.old ≤ 65536) × (n ≤ 65536)) }
    ensures ordered { Ordered w.old result }
    ensures opens_at { OpensAt w.old g n w.new result }
{
    let lo = g.lo;
    let hi = g.hi;
    if n < lo {
        return open_ahead(w, g, n);
    }
    open_ahead(w, g, n + (hi - lo))
}
