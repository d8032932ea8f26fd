// Packed bytes back to words (RULES, "Packing"; rows 50, 51 and 53), and the same with each word as eight bytes for C.
ghost use Rattle.std.specs.Prelude.{◌≡◌, true, ◌++◌, ◌≤◌, length, drop};
ghost use Rattle.words_packing.specs.Pack.{is_packed_length, unpacked_length, unpacked, unpacking, unpack_into, unpacking_eights, unpack_eights_into};

use crate::PackingRefused;
use crate::eights::{EIGHT, eight, high};
use crate::packer::{LIMIT, NIBBLE, PAIR, SECOND};
use crate::stands::Stands;

// What unpacking answers where there is room for so many words; 50 is tested first, then 53, then 51.
#[tactic(auto, unfolding(crate::specs::Pack::unpacking))]
fn unpackable(bytes: &[u8], room: usize) -> Result<usize, PackingRefused>
    ensures { result ≡ unpacking bytes.now room }
{
    let n = bytes.len();
    let over = n % PAIR;
    if over != 0 && over != EIGHT {
        return Err(PackingRefused::Length);
    }
    let size = n * 2 / PAIR;
    if room < size {
        return Err(PackingRefused::Space);
    }
    if over == EIGHT && bytes[n - 1] % 16 != 0 {
        return Err(PackingRefused::Tail);
    }
    Ok(size)
}

// The writing alone, where all fits: by fifteens, and then the last eight.
fn write_unpacked<E: Stands>(bytes: &[u8], out: &mut [E])
    requires { (is_packed_length (length bytes.now) ≡ true) × (unpacked_length (length bytes.now) ≤ length (E.words out.old)) }
    ensures { E.words out.new ≡ unpacked bytes.now ++ drop (unpacked_length (length bytes.now)) (E.words out.old) }
{
    let mut at = 0;
    let mut i = 0;
    // 15 bytes and two words a turn
    while PAIR <= bytes.len() - at {
        E::put(out, i, high(eight(bytes, at)) / NIBBLE);
        E::put(out, i + 1, high(eight(bytes, at + SECOND)) % LIMIT);
        at += PAIR;
        i += 2;
    }
    if at < bytes.len() {
        E::put(out, i, high(eight(bytes, at)) / NIBBLE);
    }
}

// Unpacks words into a space, however they stand in it.
#[tactic(auto, unfolding(crate::specs::Pack::unpacking, crate::specs::Pack::space_after))]
fn unpack_words<E: Stands>(bytes: &[u8], out: &mut [E]) -> Result<usize, PackingRefused>
    ensures value { result ≡ unpacking bytes.now (length (E.words out.old)) }
    ensures out_after { E.words out.new ≡ unpack_into bytes.now (E.words out.old) }
{
    let size = unpackable(bytes, E::count(out))?;
    write_unpacked(bytes, out);
    Ok(size)
}

// Unpacks words (RULES, "Packing").
pub fn unpack(bytes: &[u8], out: &mut [u64]) -> Result<usize, PackingRefused>
    ensures value { result ≡ unpacking bytes.now (length out.old) }
    ensures out_after { out.new ≡ unpack_into bytes.now out.old }
{
    unpack_words(bytes, out)
}

// The same for C, where a word is eight bytes, the lowest ahead.
#[tactic(auto, unfolding(crate::specs::Pack::unpacking_eights, crate::specs::Pack::space_after))]
pub fn unpack_bytes(bytes: &[u8], out: &mut [u8]) -> Result<usize, PackingRefused>
    ensures value { result ≡ unpacking_eights bytes.now (length out.old) }
    ensures out_after { out.new ≡ unpack_eights_into bytes.now out.old }
{
    if out.len() % EIGHT != 0 {
        return Err(PackingRefused::Length);
    }
    let size = unpack_words(bytes, out)?;
    Ok(size * EIGHT)
}
