// The lines of a stream, one after another (RULES, "The run").
ghost use Rattle.std.specs.Prelude.{◌≡◌, ◌≤◌, ◌<◌, length};
ghost use Rattle.run.specs.Desk.{Sane};
ghost use Rattle.run.specs.Streamed.{in_arrays, SaneEnd, ObeysStream};

use crate::desk::Desk;
use crate::obey::obey_line;
use run_meaning::RunRefused;

// The state after all lines; or why one is refused, and its number.
pub(crate) fn obey_stream(
    w: &mut [u64],
    dir: &mut [u64],
    names: &mut [u64],
    decks: &mut [u64],
    flags: &mut [u64],
    first: Desk,
    stream: &[u8],
) -> Result<Desk, RunRefused>
    requires { Sane w.old first × ((length dir.old ≡ 1024) × ((255 < length names.old) × ((1024 < length decks.old) × ((1024 < length flags.old) × (length stream.now ≤ 262144))))) }
    ensures sane_end { SaneEnd w.new result }
    ensures obeys_stream { ObeysStream (in_arrays w.old dir.old names.old decks.old flags.old) first stream.now (in_arrays w.new dir.new names.new decks.new flags.new) result }
{
    let mut d = first;
    let mut at: usize = 0;
    let mut n: usize = 1;
    // a walk from line to line
    while at < stream.len() {
        let line = words_lines::line_at(stream, at);
        let next = run_meaning::line_after(at, line);
        d = obey_line(w, dir, names, decks, flags, d, line).map_err(|y| RunRefused::Stream(y, n))?;
        at = next;
        n += 1;
    }
    Ok(d)
}
