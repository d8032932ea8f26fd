// The columns that a text says (RULES, "Text"), code by code.
ghost use Rattle.std.specs.Prelude.{◌≡◌, true, ◌++◌, ◌+◌, ◌^◌, ◌≤◌, ◌<◌, length, take, drop};
ghost use Rattle.words.specs.Text.{says, is_text};
ghost use Rattle.words_text_expand.specs.Saying.{second_says, code_says, ahead_after, word_says, word_ahead};

use crate::columns::{put_column, put_columns};
use words::{BASE, BLANK, TEN, TOP, letter_in};

const COLON: u8 = b':';

// What is ahead of a code.
#[derive(Clone, Copy, PartialEq, Eq)]
enum Ahead {
    // nothing that it belongs to
    Alone,
    // a 0, whose second code it is
    Second,
    // the line's end
    Past,
}

// Where the next column is put, and what is ahead of the next code.
#[derive(Clone, Copy)]
struct Said {
    at: usize,
    ahead: Ahead,
}

// A colon or a run of blanks, whichever the second code of a pair says.
fn say_second(c: usize, line: &mut [u8], at: usize) -> usize
    requires c_nonzero { 0 < c }
    requires c_bound { c < 64 }
    requires c_in_bounds { at + length (second_says c) ≤ length line.old }
    ensures value { result ≡ at + length (second_says c) }
    ensures line_after { take result line.new ≡ take at line.old ++ second_says c }
    ensures line_unchanged { drop result line.new ≡ drop result line.old }
{
    if c == 1 {
        return put_column(COLON, line, at);
    }
    put_columns(BLANK, c + 1, line, at)
}

fn say_code(c: usize, s: Said, line: &mut [u8]) -> Said
    requires c_bound { c < 64 }
    requires c_in_bounds { s.at + length (code_says s.ahead c) ≤ length line.old }
    ensures at_value { result.at ≡ s.at + length (code_says s.ahead c) }
    ensures line_after { take result.at line.new ≡ take s.at line.old ++ code_says s.ahead c }
    ensures line_unchanged { drop result.at line.new ≡ drop result.at line.old }
    ensures ahead_value { result.ahead ≡ ahead_after s.ahead c }
{
    match s.ahead {
        Ahead::Alone => {
            if c == 0 {
                return Said {
                    at: s.at,
                    ahead: Ahead::Second,
                };
            }
            Said {
                at: put_column(letter_in(c), line, s.at),
                ahead: Ahead::Alone,
            }
        }
        Ahead::Second => {
            if c == 0 {
                return Said {
                    at: s.at,
                    ahead: Ahead::Past,
                };
            }
            Said {
                at: say_second(c, line, s.at),
                ahead: Ahead::Alone,
            }
        }
        Ahead::Past => s,
    }
}

// The ten codes of a word, from the top.
fn say_word(word: u64, s: Said, line: &mut [u8]) -> Said
    requires word_bound { word < 2 ^ 60 }
    requires word_in_bounds { s.at + length (word_says s.ahead word) ≤ length line.old }
    ensures at_value { result.at ≡ s.at + length (word_says s.ahead word) }
    ensures line_after { take result.at line.new ≡ take s.at line.old ++ word_says s.ahead word }
    ensures line_unchanged { drop result.at line.new ≡ drop result.at line.old }
    ensures ahead_value { result.ahead ≡ word_ahead s.ahead word }
{
    let mut w = word;
    let mut said = s;
    for _k in 0..TEN {
        said = say_code((w / TOP) as usize, said, line);
        w = w % TOP * BASE;
    }
    said
}

// The columns that a text says.
pub(crate) fn say(text: &[u64], line: &mut [u8]) -> usize
    requires text_value { is_text text.now ≡ true }
    requires line_len { length line.old ≡ 80 }
    ensures value { result ≡ length (says text.now) }
    ensures line_after { line.new ≡ says text.now ++ drop result line.old }
{
    let mut said = Said {
        at: 0,
        ahead: Ahead::Alone,
    };
    for word in text {
        said = say_word(*word, said, line);
    }
    said.at
}
