// Words packed to bytes (RULES, "Packing"; rows 50 and 53), and the same with each word as eight bytes for C.
ghost use Rattle.std.specs.Prelude.{◌≡◌, true, ◌++◌, ◌+◌, ◌*◌, ◌/◌, ◌^◌, ◌≤◌, ◌<◌, length, drop};
ghost use Rattle.words.specs.Base.{all};
ghost use Rattle.words_packing.specs.Pack.{bytes_of, packed_length, packed, packing, pack_into, packing_eights, pack_eights_into, packing_number, packing_value};
ghost use Rattle.words.specs.Base.{is_word};

use crate::PackingRefused;
use crate::eights::{EIGHT, put_high};
use crate::stands::Stands;

// 2^60: a word is below it
pub(crate) const LIMIT: u64 = 1152921504606846976;
// 2^56: what the highest of eight bytes counts
const TOP: u64 = 72057594037927936;
// four bits: of 15 bytes the middle one has four of each word
pub(crate) const NIBBLE: u64 = 16;
// the bytes of two words, and where the second word's eight of them start
pub(crate) const PAIR: usize = 15;

pub(crate) const SECOND: usize = 7;

// Two words into 15 bytes: the second with the first's last four bits ahead of it, then the first over the byte that both share.
fn put_pair(out: &mut [u8], a: u64, b: u64)
    requires { (length out.old ≡ 15) × ((a < 2 ^ 60) × (b < 2 ^ 60)) }
    ensures { out.new ≡ bytes_of 15 (a * 2 ^ 60 + b) }
{
    put_high(&mut out[SECOND..PAIR], a % NIBBLE * LIMIT + b);
    put_high(&mut out[0..EIGHT], a * NIBBLE + b / TOP);
}

// Whether every number is a word of 60 bits.
fn are_words<E: Stands>(words: &[E]) -> bool
    ensures { result ≡ all is_word (E.words words.now) }
{
    for i in 0..E::count(words) {
        if LIMIT <= E::word(words, i) {
            return false;
        }
    }
    true
}

// The writing alone, where all fits: by twos, and then an odd last one.
fn write_packed<E: Stands>(words: &[E], out: &mut [u8])
    requires { (all is_word (E.words words.now) ≡ true) × (packed_length (length (E.words words.now)) ≤ length out.old) }
    ensures { out.new ≡ packed (E.words words.now) ++ drop (packed_length (length (E.words words.now))) out.old }
{
    let n = E::count(words);
    let mut i = 0;
    let mut at = 0;
    // two words a turn
    while 2 <= n - i {
        put_pair(
            &mut out[at..at + PAIR],
            E::word(words, i),
            E::word(words, i + 1),
        );
        i += 2;
        at += PAIR;
    }
    if i < n {
        put_high(&mut out[at..at + EIGHT], E::word(words, i) * NIBBLE);
    }
}

// Packs the words of a space, however they stand in it.
#[tactic(auto, unfolding(crate::specs::Pack::packing, crate::specs::Pack::space_after))]
fn pack_words<E: Stands>(words: &[E], out: &mut [u8]) -> Result<usize, PackingRefused>
    ensures value { result ≡ packing (E.words words.now) (length out.old) }
    ensures out_after { out.new ≡ pack_into (E.words words.now) out.old }
{
    let size = (PAIR * E::count(words) + 1) / 2;
    if out.len() < size {
        return Err(PackingRefused::Space);
    }
    if !are_words(words) {
        return Err(PackingRefused::Space);
    }
    write_packed(words, out);
    Ok(size)
}

// Packs words (RULES, "Packing"): each two into 15 bytes, and one that is left over into 8.
pub fn pack(words: &[u64], out: &mut [u8]) -> Result<usize, PackingRefused>
    ensures value { result ≡ packing words.now (length out.old) }
    ensures out_after { out.new ≡ pack_into words.now out.old }
{
    pack_words(words, out)
}

// The same for C, where a word is eight bytes, the lowest ahead.
#[tactic(auto, using(crate::proofs::PackAnswer::eights_count), unfolding(crate::specs::Pack::packing_eights, crate::specs::Pack::space_after))]
pub fn pack_bytes(words: &[u8], out: &mut [u8]) -> Result<usize, PackingRefused>
    ensures value { result ≡ packing_eights words.now (length out.old) }
    ensures out_after { out.new ≡ pack_eights_into words.now out.old }
{
    if words.len() % EIGHT != 0 {
        return Err(PackingRefused::Length);
    }
    pack_words(words, out)
}

// The row of the table, 0 where it was done.
pub fn packing_number(p: Result<usize, PackingRefused>) -> u64
    ensures { result ≡ packing_number p }
{
    match p {
        Ok(_) => 0,
        Err(PackingRefused::Length) => 50,
        Err(PackingRefused::Tail) => 51,
        Err(PackingRefused::Space) => 53,
    }
}

// The length that was written, 0 where it was refused.
pub fn packing_value(p: Result<usize, PackingRefused>) -> u64
    ensures { result ≡ packing_value p }
{
    match p {
        Ok(n) => n as u64,
        Err(_) => 0,
    }
}
