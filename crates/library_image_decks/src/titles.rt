// Deck cards as they stand in an image (RULES, "Decks").
ghost use Rattle.std.specs.Prelude.{◌≡◌, ◌≤◌, length};
ghost use Rattle.library.specs.Library.{deck_line};
ghost use Rattle.library.specs.Asked.{deck_line_of};
ghost use Rattle.library_image.specs.Places.{line_in};
ghost use Rattle.library_image_decks.specs.Decks.{title_in, is_title, deck_end};

use crate::deck_lines::deck_line;
use library::{DeckLine, Seen};
use library_image::COLUMNS;

// What a deck card says of its deck: its name, and whether it is common.
#[derive(Clone, Copy)]
pub(crate) struct Title {
    pub name: u64,
    pub common: bool,
}

// The words from `from` up to `to` as a deck card's text; a line that begins with no * is none, and is not expanded.
pub fn deck_at(image: &[u64], from: usize, to: usize) -> DeckLine
    ensures { result ≡ deck_line_of (deck_line (line_in image.now from to)) }
{
    if !library_image::star_at(image, from) {
        return DeckLine::NotDeck;
    }
    let mut line = [0u8; COLUMNS];
    let n = library_image::line_of(image, from, to, &mut line);
    deck_line(&line[..n])
}

pub(crate) fn title_of(image: &[u64], c: Seen) -> Option<Title>
    ensures { result ≡ title_in image.now c }
{
    match deck_at(image, c.text, c.next) {
        DeckLine::Deck(name) => Some(Title {
            name,
            common: false,
        }),
        DeckLine::Common(name) => Some(Title { name, common: true }),
        DeckLine::NotDeck | DeckLine::BadDeck => None,
    }
}

// Where the next deck card stands, from a card on, or where the image ends.
pub fn deck_end(image: &[u64], from: usize) -> usize
    ensures upper_bound { (result ≤ length image.now) × (from ≤ length image.now → from ≤ result) }
    ensures value { result ≡ deck_end image.now from }
{
    let mut at = from;
    // from card to card: no index loop
    while at < image.len() {
        let c = library_image::see(image, at);
        if title_of(image, c).is_some() {
            return at;
        }
        at = c.next;
    }
    image.len()
}
