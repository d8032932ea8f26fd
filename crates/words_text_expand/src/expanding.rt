// The words of a text to their line (RULES, "Text").
ghost use Rattle.std.specs.Prelude.{◌≡◌};
ghost use Rattle.words_text_expand.specs.Answers.{expanding, expand_into, expanded_number};

use crate::say::say;
use words_text_form::{COLUMNS, is_text};

// How many columns were written, or that the words are no text.
#[tactic(auto, unfolding(crate::specs::Answers::expanding, crate::specs::Answers::expand_into))]
pub fn expand(text: &[u64], line: &mut [u8; COLUMNS]) -> Option<usize>
    ensures value { result ≡ expanding text.now }
    ensures line_after { line.new ≡ expand_into text.now line.old }
{
    if !is_text(text) {
        return None;
    }
    Some(say(text, line))
}

// The table's numbers.
pub fn expanded_number(e: Option<usize>) -> u64
    ensures { result ≡ expanded_number e }
{
    match e {
        Some(_) => 0,
        None => 6,
    }
}
