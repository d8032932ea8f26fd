// CALL (RULES, "The compile file"), which is text in a stream.
ghost use Rattle.std.specs.Prelude.{◌≡◌};
ghost use Rattle.words_lines.specs.Directive.{call_of};

use crate::Call;
use crate::parts::{STAR, field_of, is_clean, name_of, stands_at};
use crate::scan::listed;

// Whether a card calls a common deck, and which.
#[tactic(auto, unfolding(crate::specs::Directive::call_of))]
pub fn call_of(line: &[u8]) -> Call
    ensures { result ≡ call_of line.now }
{
    if !stands_at(line, 0, STAR) {
        return Call::Not;
    }
    if !listed(name_of(line), b"CALL CA") {
        return Call::Not;
    }
    if !is_clean(line) {
        return Call::Malformed;
    }
    let word = words_names::word_of_name(field_of(line));
    if word == 0 {
        return Call::Malformed;
    }
    Call::Of(word)
}
