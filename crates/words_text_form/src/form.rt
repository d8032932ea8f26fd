// The one right form of a text, code by code (RULES, "Text").
ghost use Rattle.std.specs.Prelude.{◌≡◌, ◌&&◌, leb, ◌+◌, ◌*◌, ◌/◌, ◌%◌, ◌^◌, ◌≤◌, ◌<◌};
ghost use Rattle.words.specs.Text.{is_text};
ghost use Rattle.words_text_form.specs.Form.{fields_of, step, columns_in, after_word, count_word, may_end, ends_full};

use words::{BASE, TEN, TOP};

// the most words and columns of a text
const WORDS: usize = 16;

pub const COLUMNS: usize = 80;

// one more than the largest word
const SIXTY: u64 = 0o100000000000000000000;

// what may follow, held as its place
const SIGNED: usize = 18;

const START: usize = 24;

const PAIR_NEXT: usize = 42;

// The fields of a code: for each thing that may stand ahead of it, the lowest first, six bits that hold what may follow.
// 0: a colon's or a run's first code, or the line's end
const ZERO: u64 = 0o66666636366044526060;

// 1: a sign's, or a colon's second code
const FIRST: u64 = 0o66222222662222222222;

// a blank's code, or the second code of a run
const BLANK: u64 = 0o66660000661406060066;

// the last code: a sign's, or the second code of 64 blanks
const LONGEST: u64 = 0o66661414662222222222;

// any other code: a sign's, or the second code of a run
const OTHER: u64 = 0o66660000662222222222;

// how many codes there are, and places of a field; where a pair's second code is due, the place is in the upper half
const PLACES: usize = 64;

const HALF: usize = 32;

// What may follow, held as six times its number in the definition: the place of its field, so that a step is one shift.
#[derive(Clone, Copy)]
struct State {
    place: usize,
    ghost in_sixes: { place % 6 ≡ 0 },
    ghost in_fields: { place < 60 },
}

// The fields of each code: a table, since a walk that tests the codes takes more than twice as long.
static FIELDS: [u64; PLACES] = [
    ZERO, FIRST, OTHER, OTHER, OTHER, OTHER, OTHER, OTHER, OTHER, OTHER, OTHER, OTHER, OTHER,
    OTHER, OTHER, OTHER, OTHER, OTHER, OTHER, OTHER, OTHER, OTHER, OTHER, OTHER, OTHER, OTHER,
    OTHER, OTHER, OTHER, OTHER, OTHER, OTHER, OTHER, OTHER, OTHER, OTHER, OTHER, OTHER, OTHER,
    OTHER, OTHER, OTHER, OTHER, OTHER, OTHER, BLANK, OTHER, OTHER, OTHER, OTHER, OTHER, OTHER,
    OTHER, OTHER, OTHER, OTHER, OTHER, OTHER, OTHER, OTHER, OTHER, OTHER, OTHER, LONGEST,
];

fn fields_of(c: usize) -> u64
    requires { c < 64 }
    ensures { result ≡ fields_of c }
{
    FIELDS[c]
}

fn step(s: State, c: usize) -> State
    requires { c < 64 }
    ensures { result.place ≡ 6 * step (s.place / 6) c }
{
    State {
        place: (fields_of(c) >> s.place) as usize % PLACES,
    }
}

// One where the code is not 0; where a pair's second code is due, one where it is above 1, and the code itself.
fn columns_in(s: State, c: usize) -> usize
    requires { c < 64 }
    ensures { result ≡ columns_in (s.place / 6) c }
{
    let due = s.place / HALF;
    (c + PLACES - 1 - due) / PLACES + due * c
}

// What may follow, and the columns so far.
#[derive(Clone, Copy)]
struct Walk {
    state: State,
    columns: usize,
}

// The ten codes of a word, from the top.
fn walk_word(word: u64, from: Walk) -> Walk
    requires word_bound { word < 2 ^ 60 }
    requires columns_bound { from.columns ≤ 10240 }
    ensures state_value { result.state.place ≡ 6 * after_word (from.state.place / 6) word }
    ensures columns_value { result.columns ≡ from.columns + count_word (from.state.place / 6) word }
    ensures columns_bound_2 { result.columns ≤ from.columns + 640 }
{
    let mut w = word;
    let mut walk = from;
    for _k in 0..TEN {
        let c = (w / TOP) as usize;
        walk = Walk {
            state: step(walk.state, c),
            columns: walk.columns + columns_in(walk.state, c),
        };
        w = w % TOP * BASE;
    }
    walk
}

// The line's end is there, and it has at most 80 columns.
fn may_end(walk: Walk) -> bool
    ensures { result ≡ (may_end (walk.state.place / 6) && leb walk.columns 80) }
{
    let place = walk.state.place;
    SIGNED <= place && place < PAIR_NEXT && walk.columns <= COLUMNS
}

fn ends_full(text: &[u64]) -> bool
    ensures { result ≡ ends_full text.now }
{
    text.last() != Some(&0)
}

// Row 6: whether words are the words of a line.
pub fn is_text(text: &[u64]) -> bool
    ensures { result ≡ is_text text.now }
{
    if WORDS < text.len() {
        return false;
    }
    if !ends_full(text) {
        return false;
    }
    let mut walk = Walk {
        state: State { place: START },
        columns: 0,
    };
    for word in text {
        if SIXTY <= *word {
            return false;
        }
        walk = walk_word(*word, walk);
    }
    may_end(walk)
}
