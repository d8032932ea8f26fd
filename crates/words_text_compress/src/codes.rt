// Codes into words of ten, the first code highest (RULES, "Text").
ghost use Rattle.std.specs.Prelude.{◌≡◌, ◌++◌, ℕ, ◌≤◌, ◌<◌, length, get_or, drop};
ghost use Rattle.words.specs.Text.{words_of};

use words::{BASE, TEN, power, wide};

// Ten codes fill a word, and zeros what is left of the last: w has the codes of the word so far, of which there are k.
pub(crate) fn fill(codes: &[u8], words: &mut [u64]) -> usize
    requires by_index { (j : ℕ) → get_or codes.now j 0 < 64 }
    requires codes_len_bound { length codes.now ≤ 160 }
    requires in_bounds { 16 ≤ length words.old }
    ensures value { result ≡ length (words_of codes.now) }
    ensures words_after { words.new ≡ words_of codes.now ++ drop result words.old }
{
    let mut m = 0;
    let mut w = 0;
    let mut k = 0;
    for c in codes {
        if k == TEN {
            words[m] = w;
            m += 1;
            w = wide(*c);
            k = 1;
        } else {
            w = w * BASE + wide(*c);
            k += 1;
        }
    }
    if k == 0 {
        return m;
    }
    words[m] = w * power(TEN - k);
    m + 1
}
