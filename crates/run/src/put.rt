// A new card at the gap (RULES, "Units").
ghost use Rattle.std.specs.Prelude.{◌≤◌, ◌<◌, length, take};
ghost use Rattle.run.specs.GapWords.{Ordered};
ghost use Rattle.run.specs.Work.{PutsCard};

use crate::gap::Gap;
use library::{ACTIVATING, ACTIVE, FIELD, LAST, UPPER};

// A new card below the gap: the first k words of `text`, its number, and one byte, of the set or deck n.
pub(crate) fn put_card(w: &mut [u64], g: Gap, text: &[u64], k: usize, seq: u64, n: u64) -> Gap
    requires { Ordered w.old g × ((length w.old ≤ 65536) × ((k ≤ length text.now) × ((k ≤ 16) × ((seq < 262144) × (n < 65536))))) }
    ensures hi_in_bounds { (result.hi ≤ length w.old) × (result.lo ≤ 131072) }
    ensures puts_card { PutsCard w.old g (take k text.now) seq n w.new result }
{
    let lo = g.lo;
    let hi = g.hi;
    if hi < lo + 1 + k {
        return Gap { lo: lo + 1 + k, hi };
    }
    w[lo] = LAST + ACTIVE + k as u64 * UPPER + seq * FIELD + ACTIVATING + n;
    words_lists::put(&text[..k], w, lo + 1);
    Gap { lo: lo + 1 + k, hi }
}
