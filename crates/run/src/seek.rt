// Finding a card of the library in work by its owner and number.
ghost use Rattle.std.specs.Prelude.{◌≡◌, ◌+◌, ◌≤◌, ◌<◌, length};
ghost use Rattle.run.specs.CardSeek.{named_at, Finds};
ghost use Rattle.run.specs.GapWords.{Ordered};
ghost use Rattle.run.specs.Work.{Locates};

use crate::card::next_card;
use crate::gap::Gap;
use library::{ACTIVATING, FIELD};

// Where a card stands: the word it begins at, and its index among the cards. The end and their count where it is not found: the cards of a library
// are counted so.
#[derive(Clone, Copy)]
pub(crate) struct Place {
    pub(crate) at: usize,
    pub(crate) index: usize,
}

// Whether the card at `at` has this owner and number. The number is compared first: the cards of a deck have one owner.
fn is_card(w: &[u64], at: usize, owner: u64, seq: u64) -> bool
    requires { at < length w.now }
    ensures { result ≡ named_at w.now at owner seq }
{
    let x = w[at];
    x / FIELD % FIELD == seq && x % ACTIVATING == owner
}

// The card among those from `from` up to `to`.
pub(crate) fn find(w: &[u64], from: usize, to: usize, owner: u64, seq: u64) -> Place
    requires { (from ≤ 400000) × ((to ≤ length w.now) × (length w.now ≤ 65536)) }
    ensures at_le_to { (result.at ≤ to) × (result.index ≤ 400000) }
    ensures finds { Finds w.now from to owner seq result }
{
    let mut at = from;
    let mut i: usize = 0;
    // a walk from card to card
    while at < to {
        if is_card(w, at, owner, seq) {
            return Place { at, index: i };
        }
        at = next_card(w, at);
        i += 1;
    }
    Place { at: to, index: i }
}

// The card among all, `low` of them below the gap. A set mostly goes on from where it was, so a walk begins at the gap; beside it goes one from the
// start, a card of each in each turn. No two cards have one owner and number, so that the one found is the first.
pub(crate) fn locate(w: &[u64], g: Gap, low: usize, owner: u64, seq: u64) -> Place
    requires { Ordered w.now g × ((length w.now ≤ 65536) × (low ≤ 16383)) }
    ensures at_in_bounds { (result.at ≤ length w.now) × (result.index ≤ 1200000) }
    ensures locates { Locates w.now g low owner seq result }
{
    let lo = g.lo;
    let end = w.len();
    let mut a: usize = 0;
    let mut i: usize = 0;
    let mut b = g.hi;
    let mut j: usize = 0;
    // two walks from card to card
    while b < end {
        if lo <= a {
            let r = find(w, b, end, owner, seq);
            return Place {
                at: r.at,
                index: i + (j + r.index),
            };
        }
        if is_card(w, b, owner, seq) {
            return Place {
                at: b,
                index: low + j,
            };
        }
        if is_card(w, a, owner, seq) {
            return Place { at: a, index: i };
        }
        a = next_card(w, a);
        i += 1;
        b = next_card(w, b);
        j += 1;
    }
    let r = find(w, a, lo, owner, seq);
    if r.at < lo {
        return Place {
            at: r.at,
            index: i + r.index,
        };
    }
    Place {
        at: end,
        index: i + r.index + j,
    }
}
