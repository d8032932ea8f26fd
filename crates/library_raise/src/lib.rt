// Directory numbers raised in the history bytes of cards (RULES, "The merge").
#![tactic(auto)]

ghost use Rattle.std.specs.Prelude.{◌≡◌, ◌++◌, ◌+◌, ◌≤◌, ◌<◌, length, take, drop};
ghost use Rattle.library.specs.CardWords.{further_len, card_len};
ghost use Rattle.library_raise.specs.Raised.{byte_raised, word_raised, further_raised, card_raised, raised_words};

use library::{ABOVE_BYTES, FIELD, LAST, NUMBER, UPPER};

// A byte with its number raised; an unused one is zero and stays. Numbers go round, so that no word is refused.
#[tactic(auto, unfolding(crate::specs::Raised::byte_raised))]
fn raise_byte(b: u64, n: u64) -> u64
    requires { b < 262144 }
    ensures { (result ≡ byte_raised n b) × (result < 262144) }
{
    if b == 0 {
        return 0;
    }
    b / NUMBER * NUMBER + (b % NUMBER + n % NUMBER) % NUMBER
}

#[tactic(auto, unfolding(crate::specs::Raised::word_raised))]
fn raise_word(x: u64, n: u64) -> u64
    ensures { result ≡ word_raised n x }
{
    let a = raise_byte(x / UPPER % FIELD, n);
    let b = raise_byte(x / FIELD % FIELD, n);
    let c = raise_byte(x % FIELD, n);
    x / ABOVE_BYTES * ABOVE_BYTES + a * UPPER + b * FIELD + c
}

// The further words of a history, from `from` on. Answers where it ends.
//
// `library_yanks_bits` walks them too, and carries along what they say: one walk for both would take a trait with a state and laws, and be no plainer.
fn raise_history(w: &mut [u64], from: usize, n: u64) -> usize
    requires { from ≤ length w.old }
    ensures lower_bound { (from ≤ result) × (result ≤ length w.old) }
    ensures value { result ≡ from + further_len (drop from w.old) }
    ensures w_after { w.new ≡ take from w.old ++ further_raised n (drop from w.old) }
{
    for i in from..w.len() {
        let x = w[i];
        w[i] = raise_word(x, n);
        if LAST <= x {
            return i + 1;
        }
    }
    w.len()
}

// The numbers of the card at `at`. Answers where the next card is.
fn raise_card(w: &mut [u64], at: usize, n: u64) -> usize
    requires { at < length w.old }
    ensures lower_bound { (at < result) × (result ≡ at + card_len (drop at w.old)) }
    ensures w_after { w.new ≡ take at w.old ++ card_raised n (drop at w.old) }
{
    let x = w[at];
    let count = (x / UPPER % FIELD) as usize;
    let b = raise_byte(x % FIELD, n);
    w[at] = x / FIELD * FIELD + b;
    if LAST <= x {
        return at + 1 + count;
    }
    let next = raise_history(w, at + 1, n);
    next + count
}

// The numbers in the history bytes of the cards in these words, from the first word to the last, raised by n.
pub fn raise_numbers(w: &mut [u64], n: u64)
    ensures { w.new ≡ raised_words n w.old }
{
    let mut at = 0;
    // a walk from card to card
    while at < w.len() {
        at = raise_card(w, at, n);
    }
}
