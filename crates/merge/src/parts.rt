// Where the parts of an image stand, and an image with its parts.
ghost use Rattle.std.specs.Prelude.{◌≡◌};
ghost use Rattle.library.specs.Check.{directory_of, deck_words_of};
ghost use Rattle.library.specs.Readable.{Readable};
ghost use Rattle.merge.specs.Words.{places_of, Laid, yanks_in, decks_in};

use library::DIRECTORY;

// The places of the deck list, of the cards, and of the first deck card: the cards of YANK$$$ are ahead of it.
#[derive(Clone, Copy)]
pub(crate) struct Parts {
    pub(crate) names: usize,
    pub(crate) cards: usize,
    pub(crate) decks: usize,
}

fn parts_of(image: &[u64]) -> Parts
    ensures { result ≡ places_of image.now }
{
    let cards = library_image_decks::cards_place(image);
    Parts {
        names: DIRECTORY + library_tables::entries_of(image),
        cards: cards,
        decks: library_image_decks::deck_end(image, cards),
    }
}

// An image that the check accepted, with the places of its parts.
#[derive(Drop)]
pub(crate) struct Parted<'a> {
    pub(crate) image: &'a [u64],
    pub(crate) parts: Parts,
    ghost laid: { Laid image.now parts },
}

impl<'a> Parted<'a> {
    pub(crate) fn new(image: &'a [u64]) -> Parted<'a>
        requires { Readable image.now }
        ensures { result.image.now ≡ image.now }
    {
        Parted {
            image: image,
            parts: parts_of(image),
        }
    }

    pub(crate) fn directory(&self) -> &'a [u64]
        ensures { result.now ≡ directory_of self.now.image.now }
    {
        &self.image[DIRECTORY..self.parts.names]
    }

    pub(crate) fn list(&self) -> &'a [u64]
        ensures { result.now ≡ deck_words_of self.now.image.now }
    {
        &self.image[self.parts.names..self.parts.cards]
    }

    // The cards of YANK$$$.
    pub(crate) fn yanks(&self) -> &'a [u64]
        ensures { result.now ≡ yanks_in self.now.image.now }
    {
        &self.image[self.parts.cards..self.parts.decks]
    }

    // The decks, each with its deck card ahead of its cards.
    pub(crate) fn decks(&self) -> &'a [u64]
        ensures { result.now ≡ decks_in self.now.image.now }
    {
        &self.image[self.parts.decks..]
    }
}
