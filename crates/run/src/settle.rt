// All bits settled again for new flags (RULES, "When a card is active").
ghost use Rattle.std.specs.Prelude.{◌≡◌, false};
ghost use Rattle.library_yanks_bits.specs.SettledBits.{flagged};
ghost use Rattle.run.specs.GapWords.{Ordered};
ghost use Rattle.run.specs.Work.{Resettles};

use crate::gap::Gap;

// All bits of the library in work: the cards below the gap, then those above it.
pub(crate) fn settle_all(w: &mut [u64], g: Gap, f: &[u64])
    requires { Ordered w.old g × (flagged f.now 0 ≡ false) }
    ensures { Resettles w.old g (flagged f.now) w.new }
{
    let lo = g.lo;
    let hi = g.hi;
    library_yanks_bits::settle_bits(&mut w[..lo], f);
    library_yanks_bits::settle_bits(&mut w[hi..], f);
}
