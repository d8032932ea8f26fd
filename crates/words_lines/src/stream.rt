// The lines of a stream (RULES, "Lines").
ghost use Rattle.std.specs.Prelude.{◌≡◌, drop};
ghost use Rattle.words_lines.specs.FirstLine.{line_of};

use crate::Stop;
use crate::scan::part_at;

// The line that starts at `at`, a part of the stream; past the stream's end the empty line.
#[tactic(auto, unfolding(crate::specs::FirstLine::line_of))]
pub fn line_at(stream: &[u8], at: usize) -> &[u8]
    ensures { result.now ≡ line_of (drop at stream.now) }
{
    part_at(stream, at, Stop::Line)
}
