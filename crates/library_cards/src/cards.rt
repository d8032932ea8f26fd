// Rows 5 and 6: cards one after the other.
ghost use Rattle.std.specs.Prelude.{◌≡◌, true, IfSome, ◌+◌, ◌-◌, ◌/◌, ◌%◌, ◌^◌, ◌≤◌, ◌<◌, length, drop};
ghost use Rattle.std.specs.List.{position_from};
ghost use Rattle.words.specs.Base.{all_of, place_from};
ghost use Rattle.library.specs.Check.{is_last_word};
ghost use Rattle.library_tables.specs.Found.{found, Sized, Tabled};
ghost use Rattle.library_cards.specs.Found.{cards_read, cards_answer, answer_from, text_count, text_found, end_at};
ghost use Rattle.library.specs.WordForm.{ok_number, ok_full, ok_last, ok_further, first_tests, word_tests};

use library::{
    ABOVE_BYTES, DIRECTORY, FIELD, Fault, LAST, MOST_CARDS, MOST_HEADS, NUMBER, PURGED, Refusal,
    UPPER,
};

const LAST_ALONE: u64 = 0o40;

const ZEROS: u64 = 0o20;

// Where the first word with bit 59 stands. Not inlined, since its loop takes half as long again among the registers of the walk.
#[inline(never)]
fn last_word(words: &[u64]) -> Option<usize>
    ensures value { result ≡ position_from is_last_word 0 words.now }
    ensures upper_bound { IfSome result (λ i. i < length words.now) }
{
    words.iter().position(|w| LAST <= *w)
}

// How many words stand ahead of a card's text: those up to the first with bit 59.
fn heads_of(image: &[u64], at: usize) -> Option<usize>
    requires { at ≤ length image.now }
    ensures { result ≡ found (place_from is_last_word 1 (drop at image.now)) }
{
    let i = last_word(&image[at..])?;
    Some(i + 1)
}

// A byte's number is not below `least`, and is that of an entry that is not purged.
fn number_ok(directory: &[u64], least: u64, byte: u64) -> bool
    requires { 0 < least }
    ensures value { result ≡ ok_number directory.now least byte }
    ensures nonzero { result ≡ true → 0 < byte % 2 ^ 16 }
{
    let n = byte % NUMBER;
    if n < least {
        return false;
    }
    let place = (n - 1) as usize;
    if directory.len() <= place {
        return false;
    }
    directory[place] != PURGED
}

// A further history word that is not the last: three bytes.
fn full_ok(directory: &[u64], least: u64, w: u64) -> bool
    requires { 0 < least }
    ensures value { result ≡ ok_full directory.now least w }
    ensures nonzero { result ≡ true → 0 < w % 2 ^ 16 }
{
    if w / ABOVE_BYTES != 0 {
        return false;
    }
    let a = w / UPPER % FIELD;
    let b = w / FIELD % FIELD;
    if !number_ok(directory, least, a) {
        return false;
    }
    if !number_ok(directory, a % NUMBER, b) {
        return false;
    }
    number_ok(directory, b % NUMBER, w % FIELD)
}

// The last one: one to three bytes.
fn last_ok(directory: &[u64], least: u64, w: u64) -> bool
    requires { 0 < least }
    ensures { result ≡ ok_last directory.now least w }
{
    if w / ABOVE_BYTES != LAST_ALONE {
        return false;
    }
    let a = w / UPPER % FIELD;
    let b = w / FIELD % FIELD;
    let c = w % FIELD;
    if !number_ok(directory, least, a) {
        return false;
    }
    if b == 0 {
        return c == 0;
    }
    if !number_ok(directory, a % NUMBER, b) {
        return false;
    }
    if c == 0 {
        return true;
    }
    number_ok(directory, b % NUMBER, c)
}

// The further history words of a card, whose owner's number none may be below.
fn history_ok(directory: &[u64], words: &[u64], owner: u64) -> bool
    requires { 0 < owner }
    ensures { result ≡ ok_further directory.now owner words.now }
{
    let Some((last, full)) = words.split_last() else {
        return true;
    };
    let mut least = owner;
    for w in full {
        if !full_ok(directory, least, *w) {
            return false;
        }
        least = *w % NUMBER;
    }
    last_ok(directory, least, *last)
}

fn first_ok(directory: &[u64], w: u64) -> bool
    ensures value { result ≡ all_of (first_tests directory.now w) }
    ensures nonzero { result ≡ true → 0 < w % 2 ^ 16 }
{
    if w / ABOVE_BYTES % ZEROS != 0 {
        return false;
    }
    if w / FIELD % FIELD == 0 {
        return false;
    }
    if w / NUMBER % 2 != 1 {
        return false;
    }
    number_ok(directory, 1, w % FIELD)
}

// A card with k words ahead of its text: the text lies in the image, and the words pass.
fn words_ok(image: &[u64], directory: &[u64], at: usize, k: usize) -> bool
    requires { (0 < k) × (at + k ≤ length image.now) }
    ensures { result ≡ all_of (word_tests directory.now (drop at image.now) k) }
{
    if MOST_HEADS < k {
        return false;
    }
    let w = image[at];
    if image.len() - at - k < (w / UPPER % FIELD) as usize {
        return false;
    }
    if !first_ok(directory, w) {
        return false;
    }
    history_ok(directory, &image[at + 1..at + k], w % NUMBER)
}

// The usual card, whose first word has bit 59: it has no history words to test.
fn single_ok(image: &[u64], directory: &[u64], at: usize) -> bool
    requires { at < length image.now }
    ensures { result ≡ all_of (word_tests directory.now (drop at image.now) 1) }
{
    let w = image[at];
    if image.len() - at - 1 < (w / UPPER % FIELD) as usize {
        return false;
    }
    first_ok(directory, w)
}

// Where the text starts of the card at a place, if the card passes row 5.
fn text_of(image: &[u64], directory: &[u64], at: usize) -> Option<usize>
    requires sized { Sized image.now }
    requires at_in_bounds { at < length image.now }
    ensures { result ≡ text_found directory.now image.now at }
{
    if LAST <= image[at] {
        if single_ok(image, directory, at) {
            return Some(at + 1);
        }
        return None;
    }
    let k = heads_of(image, at)?;
    if words_ok(image, directory, at, k) {
        return Some(at + k);
    }
    None
}

// Where the card at a place ends whose text starts at `from`, if the text passes row 6.
fn end_of(image: &[u64], at: usize, from: usize) -> Option<usize>
    requires sized { Sized image.now }
    requires at_in_bounds { at < length image.now }
    requires at_in_bounds_2 { from + text_count image.now at ≤ length image.now }
    ensures { result ≡ end_at image.now at from }
{
    let end = from + (image[at] / UPPER % FIELD) as usize;
    if words_text_form::is_text(&image[from..end]) {
        return Some(end);
    }
    None
}

// Rows 5 and 6 from a place on, card by card.
fn cards_from(image: &[u64], directory: &[u64], from: usize) -> Result<(), Refusal>
    requires sized { Sized image.now }
    requires from_in_bounds { from ≤ length image.now }
    ensures { result ≡ answer_from directory.now image.now 16383 from }
{
    let mut at = from;
    let mut n = 0;
    // from card to card: no index loop
    while at < image.len() {
        if n == MOST_CARDS {
            return Err(Refusal {
                fault: Fault::Form,
                place: at,
            });
        }
        let Some(text) = text_of(image, directory, at) else {
            return Err(Refusal {
                fault: Fault::Form,
                place: at,
            });
        };
        let Some(end) = end_of(image, at, text) else {
            return Err(Refusal {
                fault: Fault::Text,
                place: at,
            });
        };
        at = end;
        n += 1;
    }
    Ok(())
}

// Rows 5 and 6 of an image whose tables are right.
pub(crate) fn cards_fault(image: &[u64]) -> Result<(), Refusal>
    requires sized { Sized image.now }
    requires tabled { Tabled image.now }
    ensures { result ≡ cards_answer (cards_read image.now) }
{
    let first = DIRECTORY + library_tables::entries_of(image);
    let from = first + library_tables::decks_of(image);
    cards_from(image, &image[DIRECTORY..first], from)
}
