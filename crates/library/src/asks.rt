// A line as a card of YANK$$$.
ghost use Rattle.std.specs.Prelude.{◌≡◌};
ghost use Rattle.library.specs.Yanks.{is_yank};

use words_lines::Line;

// Whether a line is a YANK directive.
pub fn asks_yank(line: Line) -> bool
    ensures { result ≡ is_yank line }
{
    line == Line::Yank
}
