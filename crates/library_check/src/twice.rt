// Row 10: a card with the owner and the sequence number of one ahead of it.
//
// Owner and sequence number are one key of 34 bits. The first key that stands twice is told by the list of them alone, and its card is the one with as many cards ahead of it.
ghost use Rattle.std.specs.Prelude.{◌≡◌, ◌+◌, ◌*◌, ◌/◌, ◌%◌, ◌^◌, ◌≤◌, length, take};
ghost use Rattle.library_check.specs.Keys.{Listed, Stands};
ghost use Rattle.library_check.specs.Rows.{Row10};

use library::{FIELD, NUMBER};
use library_image::see;

const MOST_CARDS: usize = 16384;

// Owner and sequence number in one, from a card's first word.
fn key_of(w: u64) -> u64
    ensures { result ≡ w % 2 ^ 16 * 2 ^ 18 + w / 2 ^ 18 % 2 ^ 18 }
{
    w % NUMBER * FIELD + w / FIELD % FIELD
}

// The keys of all cards, in fixed memory: how many there are.
fn list_keys(image: &[u64], from: usize, keys: &mut [u64; MOST_CARDS]) -> usize
    ensures upper_bound { result ≤ length keys.new }
    ensures listed { Listed image.now from (take result keys.new) }
{
    let mut n: usize = 0;
    let mut at = from;
    // a walk from card to card
    while at < image.len() {
        // row 5 lets no more cards in
        if n == MOST_CARDS {
            return n;
        }
        let c = see(image, at);
        keys[n] = key_of(image[at]);
        n += 1;
        at = c.next;
    }
    n
}

// Where the card stands that has k cards ahead of it.
fn place_of(image: &[u64], from: usize, k: usize) -> usize
    ensures { Stands image.now from k result }
{
    let mut at = from;
    for _ in 0..k {
        at = see(image, at).next;
    }
    at
}

// Not inlined, so that the keys are given back before the check goes on.
#[inline(never)]
pub(crate) fn twice_fault(image: &[u64], from: usize) -> Option<usize>
    ensures { Row10 image.now from result }
{
    let mut keys = [0u64; MOST_CARDS];
    let n = list_keys(image, from, &mut keys);
    let k = library_index_twice::first_twice(&keys[..n]);
    if n <= k {
        return None;
    }
    Some(place_of(image, from, k))
}
