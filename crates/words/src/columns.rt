// Columns of a line: of the set, without trailing blanks.
ghost use Rattle.std.specs.Prelude.{◌≡◌};
ghost use Rattle.words.specs.Base.{all};
ghost use Rattle.words.specs.Display.{in_chart};
ghost use Rattle.words.specs.Text.{trim};

use crate::display::BLANK;

// The bytes of the set are those from a blank to an underline, so that no code is asked for.
const LAST: u8 = b'_';

fn is_of_set(b: u8) -> bool
    ensures { result ≡ in_chart b }
{
    BLANK <= b && b <= LAST
}

pub fn in_set(line: &[u8]) -> bool
    ensures { result ≡ all in_chart line.now }
{
    line.iter().all(|b| is_of_set(*b))
}

pub fn trimmed(line: &[u8]) -> &[u8]
    ensures { result.now ≡ trim line.now }
{
    let mut rest = line;
    while let [front @ .., last] = rest {
        if *last != BLANK {
            return rest;
        }
        rest = front;
    }
    rest
}
