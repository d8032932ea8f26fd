// The library in work written out (RULES, "Header", "Directory", "Deck list", "Cards").
ghost use Rattle.std.specs.Prelude.{◌≡◌, ◌<◌, length};
ghost use Rattle.run.specs.Desk.{Sane};
ghost use Rattle.run.specs.Written.{Finishes};

use crate::desk::{AHEAD, Desk};
use library::MOST_WORDS;
use run_meaning::{RunRefused, Why};

// 32, and the library written where the space has room.
pub(crate) fn finish(
    w: &[u64],
    dir: &[u64],
    names: &[u64],
    d: Desk,
    space: &mut [u64],
) -> Result<usize, RunRefused>
    requires { Sane w.now d × ((length dir.now ≡ 1024) × (255 < length names.now)) }
    ensures { Finishes w.now dir.now names.now d space.old space.new result }
{
    let g = d.gap;
    let n = d.entries;
    let k = d.decks + 1;
    let lo = g.lo;
    let hi = g.hi;
    let total = AHEAD + n + d.decks + lo + (MOST_WORDS - hi);
    if library_store::write_library(&dir[..n], &names[..k], &w[..lo], &w[hi..], space) {
        return Ok(total);
    }
    Err(RunRefused::Stream(Why::Space, 0))
}
