// The table of an image's decks, a row for each (RULES, "Decks").
ghost use Rattle.std.specs.Prelude.{◌≡◌, Some, ◌+◌, ◌≤◌, ◌++◌, length, take, drop};
ghost use Rattle.library.specs.Check.{cards_place};
ghost use Rattle.library_image_decks.specs.Decks.{row_of, table_of, table_into};

use crate::titles::{Title, deck_end, title_of};
use library::{COUNTS, DIRECTORY, FIELD};
use library_image::{see, word_at};

// a row: a deck's name, the place of its first card after the deck card, the place past its last, and whether it is common
pub const ROW: usize = 4;

pub const FROM: usize = 1;

pub const TO: usize = 2;

pub const KIND: usize = 3;

const NORMAL: u64 = 0;

pub const COMMON: u64 = 1;
// a library has at most 255 decks
pub const TABLE: usize = 1024;

// A deck's row, at a place of the table.
fn put_row(table: &mut [u64], at: usize, title: Title, from: usize, to: usize)
    requires { at + 4 ≤ length table.old }
    ensures table_after { take (at + 4) table.new ≡ take at table.old ++ row_of (Some title) from to }
    ensures table_unchanged { drop (at + 4) table.new ≡ drop (at + 4) table.old }
{
    table[at] = title.name;
    table[at + FROM] = from as u64;
    table[at + TO] = to as u64;
    table[at + KIND] = if title.common { COMMON } else { NORMAL };
}

// Where the cards start.
pub fn cards_place(image: &[u64]) -> usize
    ensures { result ≡ cards_place image.now }
{
    let counts = word_at(image, COUNTS);
    DIRECTORY + (counts / FIELD) as usize + (counts % FIELD) as usize
}

// A row for each deck, as many as there is room for.
fn put_rows(image: &[u64], table: &mut [u64]) -> usize
    requires { length table.old ≡ 1024 }
    ensures upper_bound { result ≤ length table.new }
    ensures value { result ≡ length (table_of image.now) }
    ensures table_after { table.new ≡ table_into image.now table.old }
{
    let mut at = deck_end(image, cards_place(image));
    let mut n = 0;
    // from deck to deck: no index loop
    while at < image.len() {
        if n == TABLE {
            return n;
        }
        let c = see(image, at);
        let from = c.next;
        let end = deck_end(image, from);
        put_row(table, n, title_of(image, c).unwrap(), from, end);
        n += ROW;
        at = end;
    }
    n
}

// The table of an image's decks: how many words it takes.
pub fn put_table(image: &[u64], table: &mut [u64; TABLE]) -> usize
    ensures upper_bound { result ≤ length table.new }
    ensures value { result ≡ length (table_of image.now) }
    ensures table_after { table.new ≡ table_into image.now table.old }
{
    put_rows(image, table)
}
