// Which entries are decks, and of which kind (RULES, "Decks").
ghost use Rattle.std.specs.Prelude.{◌≡◌};
ghost use Rattle.keeper_directory.specs.Parts.{kind_put, Kinds};

use library::DeckLine;

// the bytes that a row shows
const NORMAL: u8 = b'D';

const COMMON: u8 = b'C';

pub(crate) const SET: u8 = b'S';

// The kind of a deck, from the line of its deck card.
fn put_kind(kinds: &mut [u8], n: u64, line: DeckLine)
    ensures { kinds.new ≡ kind_put kinds.old n line }
{
    if kinds.len() as u64 <= n {
        return;
    }
    match line {
        DeckLine::Deck(_) => kinds[n as usize] = NORMAL,
        DeckLine::Common(_) => kinds[n as usize] = COMMON,
        DeckLine::NotDeck | DeckLine::BadDeck => {}
    }
}

// The kinds of the decks whose deck cards stand from a place on.
pub(crate) fn put_kinds(image: &[u64], from: usize, kinds: &mut [u8])
    ensures { Kinds image.now from kinds.old kinds.new }
{
    let mut at = from;
    // a walk from card to card
    while at < image.len() {
        let c = library_image::see(image, at);
        let next = c.next;
        put_kind(
            kinds,
            c.owner,
            library_image_decks::deck_at(image, c.text, next),
        );
        at = next;
    }
}
