// Yank and activity bits settled for flags (RULES, "When a card is active").
#![tactic(auto)]

ghost use Rattle.std.specs.Prelude.{◌≡◌, ◌++◌, ◌+◌, ◌≤◌, ◌<◌, length, take, drop};
ghost use Rattle.library.specs.Image.{bit};
ghost use Rattle.library_yanks_bits.specs.SettledBits.{flagged, fix_byte, fix_word, say_byte, say_word, further_bits, further_says, with_active, card_bits, settled_words};
ghost use Rattle.library.specs.CardWords.{further_len, card_len};

use library::{ABOVE_BYTES, ACTIVATING, ACTIVE, FIELD, LAST, UPPER, YANKED};

// A byte with its yank bit as the flags have it: flag n is not 0 where the set n is yanked.
#[tactic(auto, unfolding(crate::specs::SettledBits::fix_byte, crate::specs::SettledBits::flagged))]
fn fix_byte(f: &[u64], b: u64) -> u64
    ensures { (result ≡ fix_byte (flagged f.now) b) × (result < 262144) }
{
    match f.get((b % ACTIVATING) as usize) {
        Some(flag) if *flag != 0 => YANKED + b % YANKED,
        _ => b % YANKED,
    }
}

#[tactic(auto, unfolding(crate::specs::SettledBits::fix_word))]
fn fix_word(f: &[u64], x: u64) -> u64
    ensures { result ≡ fix_word (flagged f.now) x }
{
    let a = fix_byte(f, x / UPPER % FIELD);
    let b = fix_byte(f, x / FIELD % FIELD);
    let c = fix_byte(f, x % FIELD);
    x / ABOVE_BYTES * ABOVE_BYTES + a * UPPER + b * FIELD + c
}

// What a byte says of activity, after what was said so far: an unused or a yanked one says nothing.
#[tactic(auto, unfolding(crate::specs::SettledBits::say_byte))]
fn say_byte(so: bool, b: u64) -> bool
    requires { b < 262144 }
    ensures { bit result 0 ≡ say_byte (bit so 0) b }
{
    if b == 0 || YANKED <= b {
        return so;
    }
    ACTIVATING <= b
}

#[tactic(auto, unfolding(crate::specs::SettledBits::say_word))]
fn say_word(so: bool, y: u64) -> bool
    ensures { bit result 0 ≡ say_word (bit so 0) y }
{
    let a = say_byte(so, y / UPPER % FIELD);
    let b = say_byte(a, y / FIELD % FIELD);
    say_byte(b, y % FIELD)
}

// Where a history ends, and what its bytes say.
#[derive(Clone, Copy)]
struct Told {
    at: usize,
    so: bool,
}

// The further words of a history, from `from` on.
fn settle_history(w: &mut [u64], from: usize, f: &[u64], so0: bool) -> Told
    requires { from ≤ length w.old }
    ensures bounds { (from ≤ result.at) × (result.at ≤ length w.old) }
    ensures at { result.at ≡ from + further_len (drop from w.old) }
    ensures says { bit result.so 0 ≡ further_says (flagged f.now) (bit so0 0) (drop from w.old) }
    ensures w_after { w.new ≡ take from w.old ++ further_bits (flagged f.now) (drop from w.old) }
{
    let mut so = so0;
    for i in from..w.len() {
        let x = w[i];
        let y = fix_word(f, x);
        w[i] = y;
        so = say_word(so, y);
        if LAST <= x {
            return Told { at: i + 1, so };
        }
    }
    Told { at: w.len(), so }
}

// A first word with its activity bit set anew.
fn with_active(h: u64, on: bool) -> u64
    ensures { result ≡ with_active h (bit on 0) }
{
    h - h / ACTIVE % 2 * ACTIVE + u64::from(on) * ACTIVE
}

// The bits of the card at `at`. Answers where the next card is.
fn settle_card(w: &mut [u64], at: usize, f: &[u64]) -> usize
    requires { at < length w.old }
    ensures lower_bound { (at < result) × (result ≡ at + card_len (drop at w.old)) }
    ensures w_after { w.new ≡ take at w.old ++ card_bits (flagged f.now) (drop at w.old) }
{
    let x = w[at];
    let count = (x / UPPER % FIELD) as usize;
    let b = fix_byte(f, x % FIELD);
    let so = say_byte(false, b);
    let y = x / FIELD * FIELD + b;
    if LAST <= x {
        w[at] = with_active(y, so);
        return at + 1 + count;
    }
    let t = settle_history(w, at + 1, f, so);
    let next = t.at;
    w[at] = with_active(y, t.so);
    next + count
}

// The bits of the cards in these words, from the first word to the last, settled for flags.
pub fn settle_bits(w: &mut [u64], flags: &[u64])
    ensures { w.new ≡ settled_words (flagged flags.now) w.old }
{
    let mut at = 0;
    // a walk from card to card
    while at < w.len() {
        at = settle_card(w, at, flags);
    }
}
