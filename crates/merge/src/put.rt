// The words of a merged library, put into a space that has room for them.
ghost use Rattle.std.specs.Prelude.{◌≡◌, ◌++◌, ◌+◌, ◌^◌, ◌≤◌, ◌<◌, length, get_or, drop};
ghost use Rattle.library_raise.specs.Raised.{raised_words};
ghost use Rattle.merge.specs.Words.{header_of, tables_of, merged_cards, merged_words, raised_part};
ghost use Rattle.words_lists.specs.Over.{put_at};

use crate::parts::Parted;
use library::{COUNTS, DIRECTORY};

// What both have and the merged library has once: a header of two words, and YANK$$$ in the deck list.
pub(crate) const TWICE: usize = 3;

// A part of the first and that of the second.
fn put_both(space: &mut [u64], at: usize, first: &[u64], second: &[u64])
    requires { at + length first.now + length second.now ≤ length space.old }
    ensures { space.new ≡ put_at at (first.now ++ second.now) space.old }
{
    words_lists::put(first, space, at);
    words_lists::put(second, space, at + first.len());
}

fn raise_part(space: &mut [u64], from: usize, to: usize, n: u64)
    requires { (from ≤ to) × (to ≤ length space.old) }
    ensures { space.new ≡ raised_part from to n space.old }
{
    library_raise::raise_numbers(&mut space[from..to], n);
}

// Cards of the first and those of the second, whose numbers are raised where they stand.
fn put_raised(space: &mut [u64], at: usize, first: &[u64], second: &[u64], n: u64)
    requires { at + length first.now + length second.now ≤ length space.old }
    ensures { space.new ≡ put_at at (first.now ++ raised_words n second.now) space.old }
{
    put_both(space, at, first, second);
    let from = at + first.len();
    raise_part(space, from, from + second.len(), n);
}

// The header, and the counts of both, of which YANK$$$ is counted once.
fn put_counts(first: &[u64], second: &[u64], space: &mut [u64])
    requires in_bounds { (1 < length first.now) × ((1 < length second.now) × (1 < length space.old)) }
    requires bound { (1 ≤ get_or first.now 1 0) × ((get_or first.now 1 0 < 2 ^ 36) × (get_or second.now 1 0 < 2 ^ 36)) }
    ensures { space.new ≡ header_of first.now second.now ++ drop 2 space.old }
{
    space[0] = first[0];
    space[COUNTS] = first[COUNTS] + second[COUNTS] - 1;
}

// Header and counts, both directories, both deck lists.
fn put_tables(a: &Parted, b: &Parted, space: &mut [u64])
    requires { a.now.parts.cards + b.now.parts.cards ≤ length space.old + 3 }
    ensures { space.new ≡ tables_of a.now.image.now b.now.image.now ++ drop (length (tables_of a.now.image.now b.now.image.now)) space.old }
{
    let names = a.parts.names + b.parts.names - DIRECTORY;
    put_counts(a.image, b.image, space);
    put_both(space, DIRECTORY, a.directory(), b.directory());
    // YANK$$$ stands once
    put_both(space, names, a.list(), &b.list()[1..]);
}

// The cards of YANK$$$ of both, then the decks of both.
fn put_cards(a: &Parted, b: &Parted, space: &mut [u64])
    requires { length a.now.image.now + length b.now.image.now ≤ length space.old + 3 }
    ensures { space.new ≡ put_at (length (tables_of a.now.image.now b.now.image.now)) (merged_cards a.now.image.now b.now.image.now) space.old }
{
    let n = (a.parts.names - DIRECTORY) as u64;
    let cards = a.parts.cards + b.parts.cards - TWICE;
    let decks = a.parts.decks + b.parts.decks - TWICE;
    put_raised(space, cards, a.yanks(), b.yanks(), n);
    put_raised(space, decks, a.decks(), b.decks(), n);
}

pub(crate) fn put_merged(a: &Parted, b: &Parted, space: &mut [u64])
    requires { length a.now.image.now + length b.now.image.now ≤ length space.old + 3 }
    ensures { space.new ≡ merged_words a.now.image.now b.now.image.now ++ drop (length (merged_words a.now.image.now b.now.image.now)) space.old }
{
    put_tables(a, b, space);
    put_cards(a, b, space);
}
