// Op 8: what a line asks, as the number of its kind and the words that it names (tests/CASES.md).
use crate::answer::Numbers;
use cases_sums::sum_words;
use words_lines::{Call, Line};

// more names than 80 columns hold
const NAMES: usize = 64;

// What a line that is not refused asks for.
#[derive(Clone, Copy, PartialEq, Eq)]
enum Kind {
    Text = 0,
    Skipped = 1,
    Deck = 2,
    Comdeck = 3,
    Ident = 4,
    Insert = 5,
    Before = 6,
    Delete = 7,
    Restore = 8,
    Yank = 9,
}

// A line's kind, and the words that it names.
fn named(kind: Kind, words: &[u64]) -> Numbers {
    Numbers {
        number: 0,
        first: kind as u64,
        second: words.len() as u64,
        sum: sum_words(words),
    }
}

fn put_names<'a>(field: &[u8], names: &'a mut [u64; NAMES]) -> &'a [u64] {
    let mut at = 0;
    for n in 0..NAMES {
        let Some(name) = words_lines_asked::next_name(field, at) else {
            return &names[..n];
        };
        names[n] = name.word;
        at = name.next;
    }
    names
}

// The names of a YANK, as its line has them.
fn yank(line: &[u8]) -> Numbers {
    let mut names = [0; NAMES];
    named(
        Kind::Yank,
        put_names(words_lines::field_of(line), &mut names),
    )
}

// A text line is a CALL's or no CALL: its words are 1 and the name, or 2 for a malformed one.
fn text(line: &[u8]) -> Numbers {
    match words_lines::call_of(line) {
        Call::Not => named(Kind::Text, &[]),
        Call::Of(w) => named(Kind::Text, &[1, w]),
        Call::Malformed => named(Kind::Text, &[2]),
    }
}

pub fn line(line: &[u8]) -> Numbers {
    let l = words_lines_asked::directive(line);
    match l {
        Line::Text => text(line),
        Line::Skipped => named(Kind::Skipped, &[]),
        Line::Deck(w) => named(Kind::Deck, &[w]),
        Line::Comdeck(w) => named(Kind::Comdeck, &[w]),
        Line::Ident(w) => named(Kind::Ident, &[w]),
        Line::Insert(c) => named(Kind::Insert, &[c.name, c.seq]),
        Line::Before(c) => named(Kind::Before, &[c.name, c.seq]),
        Line::Delete(a, b) => named(Kind::Delete, &[a.name, a.seq, b.name, b.seq]),
        Line::Restore(a, b) => named(Kind::Restore, &[a.name, a.seq, b.name, b.seq]),
        Line::Yank => yank(line),
        Line::Outside | Line::Long | Line::Malformed | Line::NotCarried => Numbers {
            number: words_lines_asked::line_number(l),
            first: 0,
            second: 0,
            sum: 0,
        },
    }
}
