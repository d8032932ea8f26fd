// Row 7: deck cards against the deck list (RULES, "Decks").
ghost use Rattle.std.specs.Prelude.{◌≡◌, ◌≤◌, ◌<◌, length};
ghost use Rattle.library_check.specs.Rows.{begins_deck, titled, is_next, Row7, CardsEnd};

use library::{DeckLine, Seen};
use library_image::see;
use library_image_decks::deck_at;

fn begins(line: DeckLine) -> bool
    ensures { result ≡ begins_deck line }
{
    !matches!(line, DeckLine::NotDeck)
}

// Where the cards of YANK$$$ end: at the first deck card, or with the image.
pub(crate) fn cards_end(image: &[u64], from: usize) -> usize
    requires { from ≤ length image.now }
    ensures lower_bound { (from ≤ result) × (result ≤ length image.now) }
    ensures cards_end { CardsEnd image.now from result }
{
    let mut at = from;
    // a walk from card to card
    while at < image.len() {
        let c = see(image, at);
        let next = c.next;
        if begins(deck_at(image, c.text, next)) {
            return at;
        }
        at = next;
    }
    image.len()
}

// Whether the card is that of the list's next name: owned by it, number 1, and of one byte, so that the text follows the first word.
fn titles(directory: &[u64], at: usize, c: Seen, name: u64, w: u64) -> bool
    requires { at < c.text }
    ensures { result ≡ titled directory.now at c name w }
{
    w == name
        && c.owner == library_index::entry_of(directory, w) as u64
        && c.seq == 1
        && c.text == at + 1
}

fn is_next(directory: &[u64], at: usize, c: Seen, name: u64, line: DeckLine) -> bool
    requires { at < c.text }
    ensures { result ≡ is_next directory.now at c name line }
{
    match line {
        DeckLine::NotDeck | DeckLine::BadDeck => false,
        DeckLine::Deck(w) | DeckLine::Common(w) => titles(directory, at, c, name, w),
    }
}

// Row 7: the image's length where deck cards are missing.
pub(crate) fn decks_fault(
    image: &[u64],
    directory: &[u64],
    list: &[u64],
    from: usize,
) -> Option<usize>
    ensures { Row7 directory.now list.now image.now from result }
{
    let mut at = from;
    let mut d: usize = 1;
    // a walk from card to card
    while at < image.len() {
        let c = see(image, at);
        let next = c.next;
        let line = deck_at(image, c.text, next);
        if begins(line) {
            if list.len() <= d || !is_next(directory, at, c, list[d], line) {
                return Some(at);
            }
            d += 1;
        }
        at = next;
    }
    (d < list.len()).then_some(image.len())
}
