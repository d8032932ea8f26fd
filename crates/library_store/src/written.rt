// A library written out (RULES, "Header", "Directory", "Deck list", "Cards").
ghost use Rattle.std.specs.Prelude.{◌≡◌, ◌+◌, ◌*◌, ◌^◌, ◌≤◌, ◌<◌, ◌∷◌, ◌++◌, length, drop};
ghost use Rattle.library.specs.Image.{header};
ghost use Rattle.library_store.specs.Stored.{library_words, has_room, library_into};

use library::DIRECTORY;
use words_lists::put;

// A count's field, of 18 bits, ends below this.
const FIELD: usize = 262144;

// Whether the counts fit their fields and the words the space: what is left of it is told by subtraction, since a sum of any lengths could overflow.
fn has_room(directory: &[u64], decks: &[u64], low: &[u64], high: &[u64], room: usize) -> bool
    ensures { result ≡ has_room directory.now decks.now low.now high.now room }
{
    if FIELD <= directory.len() {
        return false;
    }
    if FIELD <= decks.len() {
        return false;
    }
    let tables = DIRECTORY + directory.len() + decks.len();
    if room < tables {
        return false;
    }
    if room - tables < low.len() {
        return false;
    }
    high.len() <= room - tables - low.len()
}

// The header, of n entries and k decks.
fn put_header(space: &mut [u64], n: usize, k: usize)
    requires { (1 < length space.old) × ((n < 2 ^ 18) × (k < 2 ^ 18)) }
    ensures { space.new ≡ header ∷ (n * 2 ^ 18 + k) ∷ drop 2 space.old }
{
    space[0] = library::header_word();
    space[1] = (n * FIELD + k) as u64;
}

// Header, directory, deck list and cards, one after another.
fn put_library(directory: &[u64], decks: &[u64], low: &[u64], high: &[u64], space: &mut [u64])
    requires { (length directory.now < 2 ^ 18) × ((length decks.now < 2 ^ 18) × (2 + length directory.now + length decks.now + length low.now + length high.now ≤ length space.old)) }
    ensures { space.new ≡ library_words directory.now decks.now low.now high.now ++ drop (length (library_words directory.now decks.now low.now high.now)) space.old }
{
    let n = directory.len();
    let k = decks.len();
    let cards = DIRECTORY + n + k;
    put_header(space, n, k);
    put(directory, space, DIRECTORY);
    put(decks, space, DIRECTORY + n);
    put(low, space, cards);
    put(high, space, cards + low.len());
}

// A library's image of its directory, its deck list and its cards in two parts, where the space has room; whether it has.
pub fn write_library(
    directory: &[u64],
    decks: &[u64],
    low: &[u64],
    high: &[u64],
    space: &mut [u64],
) -> bool
    ensures value { result ≡ has_room directory.now decks.now low.now high.now (length space.old) }
    ensures space_after { space.new ≡ library_into directory.now decks.now low.now high.now space.old }
{
    let fits = has_room(directory, decks, low, high, space.len());
    if fits {
        put_library(directory, decks, low, high, space);
    }
    fits
}
