// A directive's parts (RULES, "Directives"): its name, its field of parameters, and the blanks after it.
ghost use Rattle.std.specs.Prelude.{◌≡◌, ◌≤◌, length, drop};
ghost use Rattle.words_lines.specs.Directive.{starts, name_of_line, after_name, field, is_clean};

use crate::Stop;
use crate::scan::{COMMA, part_at, place_of};

pub(crate) const STAR: u8 = b'*';

pub(crate) const SLASH: u8 = b'/';

// Whether a byte stands at a place of the line.
pub(crate) fn stands_at(line: &[u8], at: usize, b: u8) -> bool
    ensures { result ≡ starts b (drop at line.now) }
{
    line.get(at) == Some(&b)
}

// What stands between column 1 and the name's end.
#[tactic(auto, unfolding(crate::specs::Directive::name_of_line))]
pub(crate) fn name_of(line: &[u8]) -> &[u8]
    ensures { result.now ≡ name_of_line line.now }
{
    part_at(line, 1, Stop::Name)
}

// Where the parameters start: after one comma, or after the blanks.
fn field_start(line: &[u8]) -> usize
    ensures within { result ≤ length line.now }
    ensures start { drop result line.now ≡ after_name line.now }
{
    if line.is_empty() {
        return 0;
    }
    let e = place_of(line, 1, Stop::Name);
    if e == line.len() {
        return e;
    }
    if line[e] == COMMA {
        return e + 1;
    }
    place_of(line, e + 1, Stop::NonBlank)
}

// The parameters as they stand in the line.
#[tactic(auto, unfolding(crate::specs::Directive::field))]
pub fn field_of(line: &[u8]) -> &[u8]
    ensures { result.now ≡ field line.now }
{
    part_at(line, field_start(line), Stop::Blank)
}

// Whether only blanks follow the parameters.
pub fn is_clean(line: &[u8]) -> bool
    ensures { result ≡ is_clean line.now }
{
    let at = field_start(line);
    let e = place_of(line, at, Stop::Blank);
    place_of(line, e, Stop::NonBlank) == line.len()
}
