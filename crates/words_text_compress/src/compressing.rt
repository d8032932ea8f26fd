// A line to the words of its text (RULES, "Text").
ghost use Rattle.std.specs.Prelude.{◌≡◌, true, ◌++◌, ◌≤◌, length, drop};
ghost use Rattle.words.specs.Base.{all};
ghost use Rattle.words.specs.Display.{in_chart};
ghost use Rattle.words.specs.Text.{text_words};
ghost use Rattle.words_text_compress.specs.Answers.{compressing, compress_into, compressed_number};

use crate::LineRefused;
use crate::codes::fill;
use crate::line::put_line;
use words::{in_set, trimmed};

// the most words and columns of a text
const WORDS: usize = 16;

const COLUMNS: usize = 80;

// a line has at most two codes for each column
const CODES: usize = 160;

// The words of a line of at most 80 columns, all of the set.
fn write(line: &[u8], text: &mut [u64]) -> usize
    requires line_value { all in_chart line.now ≡ true }
    requires line_len_bound { length line.now ≤ 80 }
    requires in_bounds { 16 ≤ length text.old }
    ensures value { result ≡ length (text_words line.now) }
    ensures text_after { text.new ≡ text_words line.now ++ drop result text.old }
{
    let mut codes = [0u8; CODES];
    let n = put_line(trimmed(line), &mut codes);
    fill(&codes[..n], text)
}

// How many words were written, or why none was.
#[tactic(auto, unfolding(crate::specs::Answers::compressing, crate::specs::Answers::compress_into))]
pub fn compress(line: &[u8], text: &mut [u64; WORDS]) -> Result<usize, LineRefused>
    ensures value { result ≡ compressing line.now }
    ensures text_after { text.new ≡ compress_into line.now text.old }
{
    if !in_set(line) {
        return Err(LineRefused::Outside);
    }
    if COLUMNS < line.len() {
        return Err(LineRefused::Long);
    }
    Ok(write(line, text))
}

// The table's numbers.
pub fn compressed_number(c: Result<usize, LineRefused>) -> u64
    ensures { result ≡ compressed_number c }
{
    match c {
        Ok(_) => 0,
        Err(LineRefused::Outside) => 20,
        Err(LineRefused::Long) => 21,
    }
}
