// Searching bytes: where a part ends, and whether a name is among names.
ghost use Rattle.std.specs.Prelude.{◌≡◌, ◌+◌, ◌≤◌, eqb, length, drop};
ghost use Rattle.words.specs.Base.{any, same, take_until, beyond, split};
ghost use Rattle.words.specs.Display.{blank};
ghost use Rattle.words_lines.specs.Scan.{stops_at};

use crate::Stop;

const NEWLINE: u8 = 10;

const BLANK: u8 = b' ';

pub(crate) const COMMA: u8 = b',';

const POINT: u8 = b'.';

fn stops(stop: Stop, b: u8) -> bool
    ensures { result ≡ stops_at stop b }
{
    match stop {
        Stop::Line => b == NEWLINE,
        Stop::Name => b == COMMA || b == BLANK,
        Stop::Parameter => b == COMMA,
        Stop::Blank => BLANK == b,
        Stop::NonBlank => b != BLANK,
        Stop::Point => POINT == b,
    }
}

// The place of the first byte at or after `at` where the search stops, or the end.
pub(crate) fn place_of(s: &[u8], at: usize, stop: Stop) -> usize
    requires { at ≤ length s.now }
    ensures place { result ≡ at + length (take_until (stops_at stop) (drop at s.now)) }
    ensures within { result ≤ length s.now }
{
    let rest = &s[at..];
    at + rest
        .iter()
        .position(|b| stops(stop, *b))
        .unwrap_or(rest.len())
}

// What stands from `at` up to where the search stops; past the end nothing.
pub fn part_at(s: &[u8], at: usize, stop: Stop) -> &[u8]
    ensures { result.now ≡ take_until (stops_at stop) (drop at s.now) }
{
    if s.len() < at {
        return &s[..0];
    }
    let e = place_of(s, at, stop);
    &s[at..e]
}

// What stands after the first byte where the search stops, or nothing.
pub fn part_after(s: &[u8], stop: Stop) -> &[u8]
    ensures { result.now ≡ beyond (stops_at stop) s.now }
{
    let e = place_of(s, 0, stop);
    if e == s.len() {
        return &s[e..];
    }
    &s[e + 1..]
}

// Whether a name is one of those that blanks part in `names`.
pub(crate) fn listed(name: &[u8], names: &[u8]) -> bool
    ensures { result ≡ any (same name.now) (split (eqb blank) names.now) }
{
    names.split(|b| *b == BLANK).any(|part| part == name)
}
