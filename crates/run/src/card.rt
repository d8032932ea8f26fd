// A card's heads, the words of its history, as they stand in an array (RULES, "Cards").
ghost use Rattle.std.specs.Prelude.{◌≡◌, true, false, ◌+◌, ◌-◌, ◌*◌, ◌/◌, ◌%◌, ◌^◌, ◌≤◌, ◌<◌, length, drop, leb, position};
ghost use Rattle.std.specs.Int.{from_bool};
ghost use Rattle.run.specs.CardHeads.{head_len, beyond, SeesAny, FullAny};

use library::{ACTIVATING, ACTIVE, FIELD, LAST, MOST_HEADS, UPPER};

// What is seen of a card: its owner and number, its activity bit, how many words of history it has, and of text.
#[derive(Clone, Copy)]
pub(crate) struct Seen {
    pub(crate) owner: u64,
    pub(crate) seq: u64,
    pub(crate) active: bool,
    pub(crate) heads: usize,
    pub(crate) count: usize,
}

// Where the last word of the first history is.
fn last_word(w: &[u64]) -> Option<usize>
    ensures { result ≡ position (leb (2 ^ 59)) w.now }
{
    w.iter().position(|x| LAST <= *x)
}

// How many words of history stand from `at` on.
fn head_len(w: &[u64], at: usize) -> usize
    requires { at ≤ length w.now }
    ensures { (result ≡ head_len (drop at w.now)) × ((at + result ≤ length w.now) × (at < length w.now → 0 < result)) }
{
    match last_word(&w[at..]) {
        Some(i) => i + 1,
        None => w.len() - at,
    }
}

pub(crate) fn see(w: &[u64], at: usize) -> Seen
    requires { at < length w.now }
    ensures heads_in_bounds { (at + result.heads ≤ length w.now) × ((0 < result.heads) × (result.count < 262144)) }
    ensures sees_any { SeesAny w.now at result }
{
    let x = w[at];
    let n = head_len(w, at);
    Seen {
        owner: x % ACTIVATING,
        seq: x / FIELD % FIELD,
        active: x / ACTIVE % 2 == 1,
        heads: n,
        count: (x / UPPER % FIELD) as usize,
    }
}

// The word after a card: most have one word of history, whose text follows at once.
pub(crate) fn next_card(w: &[u64], at: usize) -> usize
    requires { at < length w.now }
    ensures lower_bound { (at < result) × (result < length w.now + 262144) }
    ensures value { result ≡ beyond w.now at }
{
    let x = w[at];
    let count = (x / UPPER % FIELD) as usize;
    if LAST <= x {
        return at + 1 + count;
    }
    let n = head_len(w, at + 1);
    at + 1 + n + count
}

// Whether the history at `at` has 64 bytes, so that one more would pass the limit of row 5.
pub(crate) fn is_full(w: &[u64], at: usize, heads: usize) -> bool
    requires { (0 < heads) × (at + heads ≤ length w.now) }
    ensures { FullAny w.now at heads result }
{
    MOST_HEADS <= heads && w[at + heads - 1] % FIELD != 0
}

// A first word with its activity bit set anew.
pub(crate) fn with_active(h: u64, on: bool) -> u64
    ensures { result ≡ h - h / 2 ^ 58 % 2 * 2 ^ 58 + from_bool on * 2 ^ 58 }
{
    h - h / ACTIVE % 2 * ACTIVE + u64::from(on) * ACTIVE
}
