// The first key that stands twice. The keys of a library that UPDATE wrote lie close together, since numbers are given out one after another: slots show that they differ. Of any
// other keys, too far apart or with one twice, a tree has the answer.
ghost use Rattle.std.specs.Prelude.{◌≡◌, ◌≤◌, length, take, unwrap_or};
ghost use Rattle.library_index_twice.specs.Twice.{first_twice};

use crate::slots::slots_differ;
use crate::tree::{MOST_KEYS, tree_twice};

// Not inlined: its arrays are given back before the check goes on, which wants as much stack again.
#[inline(never)]
fn twice_in(keys: &[u64]) -> Option<usize>
    requires { length keys.now ≤ 16384 }
    ensures { unwrap_or result (length keys.now) ≡ first_twice keys.now }
{
    if slots_differ(keys) {
        return None;
    }
    tree_twice(keys)
}

// Where the first key stands that stood ahead of it, of the first 16,384; how many there are where none did.
#[tactic(auto, using(std::proofs::lemmas::List::take_min))]
pub fn first_twice(keys: &[u64]) -> usize
    ensures { result ≡ first_twice (take 16384 keys.now) }
{
    let first = &keys[..MOST_KEYS.min(keys.len())];
    twice_in(first).unwrap_or(first.len())
}
