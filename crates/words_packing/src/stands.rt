// How words stand in a space: a number for each, or, for C, eight bytes for each, the lowest ahead.
ghost use Rattle.std.specs.Prelude.{◌≡◌, ℕ, ◌^◌, ◌<◌, List, length, get_or, slice_set};
ghost use Rattle.words_packing.specs.Pack.{words_of_eights};

use crate::eights::{EIGHT, eight, low, put_low};

// An element of a space that words stand in.
pub(crate) trait Stands: Copy {
    // the words of a space
    ghost words: { List Self → List ℕ };

    fn count(space: &[Self]) -> usize
        ensures value { result ≡ length (words space.now) }
        ensures bound { result < 2 ^ 60 };

    fn word(space: &[Self], i: usize) -> u64
        requires { i < length (words space.now) }
        ensures { result ≡ get_or (words space.now) i 0 };

    fn put(space: &mut [Self], i: usize, w: u64)
        requires { i < length (words space.old) }
        ensures { words space.new ≡ slice_set (words space.old) i w };
}

impl Stands for u64 {
    ghost words = { λ space. space };

    fn count(space: &[u64]) -> usize {
        space.len()
    }

    fn word(space: &[u64], i: usize) -> u64 {
        space[i]
    }

    fn put(space: &mut [u64], i: usize, w: u64) {
        space[i] = w;
    }
}

impl Stands for u8 {
    ghost words = { words_of_eights };

    #[tactic(auto, using(crate::proofs::PackAnswer::eights_count))]
    fn count(space: &[u8]) -> usize {
        space.len() / EIGHT
    }

    #[tactic(auto, using(crate::proofs::PackAnswer::eights_count))]
    fn word(space: &[u8], i: usize) -> u64 {
        low(eight(space, i * EIGHT))
    }

    #[tactic(auto, using(crate::proofs::PackAnswer::eights_count))]
    fn put(space: &mut [u8], i: usize, w: u64) {
        let at = i * EIGHT;
        put_low(&mut space[at..at + EIGHT], w);
    }
}
