// Rows 1 to 4: the words' size, the header, the counts and the names.
ghost use Rattle.std.specs.Prelude.{◌≡◌, [], ◌+◌, ◌/◌, ◌%◌, ◌^◌, ◌≤◌, ◌<◌, length, get_or};
ghost use Rattle.std.specs.List.{position_from};
ghost use Rattle.words.specs.Base.{any_of};
ghost use Rattle.words_lists.specs.Ahead.{ahead_of};
ghost use Rattle.words.specs.Names.{is_name_word};
ghost use Rattle.library.specs.Check.{directory_count, deck_count, first_bad, ok_entry, ok_deck_word, row1, row2, row3, row4};
ghost use Rattle.library_tables.specs.Found.{found, large, count_faults, Sized, Tabled};

use library::{COUNTS, DIRECTORY, FIELD, MOST_DECKS, MOST_ENTRIES, MOST_WORDS, PURGED, UPPER};

const LEAST_WORDS: usize = 3;

// the first number of more than 60 bits
const TOO_LARGE: u64 = 0o100000000000000000000;

fn large_word(image: &[u64]) -> Option<usize>
    ensures { result ≡ position_from large 0 image.now }
{
    image.iter().position(|w| TOO_LARGE <= *w)
}

#[tactic(auto, using(crate::proofs::FirstFault::large_found))]
pub(crate) fn size_fault(image: &[u64]) -> Option<usize>
    ensures { result ≡ found (row1 image.now) }
{
    let n = image.len();
    if n < LEAST_WORDS {
        return Some(n);
    }
    if MOST_WORDS < n {
        return Some(MOST_WORDS);
    }
    large_word(image)
}

pub(crate) fn header_fault(image: &[u64]) -> Option<usize>
    requires { 3 ≤ length image.now }
    ensures { result ≡ found (row2 image.now) }
{
    if image[0] == library::header_word() {
        None
    } else {
        Some(0)
    }
}

// How many entries the directory has.
pub fn entries_of(image: &[u64]) -> usize
    ensures { (result ≡ directory_count image.now) × (result < 2 ^ 46) }
{
    if image.len() <= COUNTS {
        return 0;
    }
    (image[COUNTS] / FIELD) as usize
}

// How many names the deck list has.
pub fn decks_of(image: &[u64]) -> usize
    ensures { (result ≡ deck_count image.now) × (result < 2 ^ 18) }
{
    if image.len() <= COUNTS {
        return 0;
    }
    (image[COUNTS] % FIELD) as usize
}

// Whether the second word is at fault, wherever the tables end.
fn counts_fault(counts: u64) -> bool
    ensures { result ≡ any_of (count_faults counts) }
{
    if UPPER <= counts {
        return true;
    }
    if (MOST_ENTRIES as u64) < counts / FIELD {
        return true;
    }
    if counts % FIELD == 0 {
        return true;
    }
    (MOST_DECKS as u64) < counts % FIELD
}

pub(crate) fn tables_fault(image: &[u64]) -> Option<usize>
    requires { 3 ≤ length image.now }
    ensures { result ≡ found (row3 image.now) }
{
    if counts_fault(image[COUNTS]) {
        return Some(COUNTS);
    }
    let cards = DIRECTORY + entries_of(image) + decks_of(image);
    if image.len() < cards {
        return Some(COUNTS);
    }
    None
}

fn is_name_word(w: u64) -> bool
    ensures { result ≡ is_name_word w }
{
    let mut name = [0u8; 9];
    words_names::name_of_word(w, &mut name) != 0
}

fn entry_ok(directory: &[u64], at: usize) -> bool
    requires { at < length directory.now }
    ensures { result ≡ ok_entry (ahead_of at directory.now) (get_or directory.now at 0) }
{
    let w = directory[at];
    if w == PURGED {
        return true;
    }
    if w == library::reserved_word() {
        return false;
    }
    if words_lists::stands(&directory[..at], w) {
        return false;
    }
    is_name_word(w)
}

fn entries_fault(directory: &[u64]) -> Option<usize>
    requires { length directory.now ≤ 1023 }
    ensures { result ≡ found (first_bad ok_entry [] 2 directory.now) }
{
    for i in 0..directory.len() {
        if !entry_ok(directory, i) {
            return Some(DIRECTORY + i);
        }
    }
    None
}

fn deck_word_ok(directory: &[u64], decks: &[u64], at: usize) -> bool
    requires { at < length decks.now }
    ensures { result ≡ ok_deck_word directory.now (ahead_of at decks.now) (get_or decks.now at 0) }
{
    let w = decks[at];
    if at == 0 {
        return w == library::reserved_word();
    }
    if !words_lists::stands(directory, w) {
        return false;
    }
    if words_lists::stands(&decks[..at], w) {
        return false;
    }
    is_name_word(w)
}

// `first` is the place of the deck list.
fn deck_words_fault(directory: &[u64], decks: &[u64], first: usize) -> Option<usize>
    requires { first + length decks.now ≤ 65536 }
    ensures { result ≡ found (first_bad (ok_deck_word directory.now) [] first decks.now) }
{
    for i in 0..decks.len() {
        if !deck_word_ok(directory, decks, i) {
            return Some(first + i);
        }
    }
    None
}

pub(crate) fn name_fault(image: &[u64]) -> Option<usize>
    requires sized { Sized image.now }
    requires tabled { Tabled image.now }
    ensures { result ≡ found (row4 image.now) }
{
    let first = DIRECTORY + entries_of(image);
    let cards = first + decks_of(image);
    let directory = &image[DIRECTORY..first];
    entries_fault(directory).or_else(|| deck_words_fault(directory, &image[first..cards], first))
}
