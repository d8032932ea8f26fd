// The keys ahead as a tree. From each key four ways go on, by two bits at a time, so that a key has two bits more in common with each that it comes to, and comes to 33 at most.
ghost use Rattle.std.specs.Prelude.{◌≡◌, ◌≤◌, ◌<◌, length, unwrap_or};
ghost use Rattle.library_index_twice.specs.Twice.{first_twice};
ghost use Rattle.library_index_twice.specs.KeyTree.{Tree, Stood};

pub(crate) const MOST_KEYS: usize = 16384;

// from each key
const WAYS: usize = 4;

const ALL_WAYS: usize = MOST_KEYS * WAYS;

// Whether key n stood ahead; if not, its ways lead to it from now on.
fn stood(keys: &[u64], ways: &mut [u16; ALL_WAYS], n: usize) -> bool
    requires n_in_bounds { (n < length keys.now) × (n ≤ 16383) }
    requires tree { Tree keys.now ways.old n }
    ensures { Stood keys.now n result ways.new }
{
    let key = keys[n];
    let mut at: usize = 0;
    let mut rest = key as usize;
    // a walk from key to key
    while at < n {
        if keys[at] == key {
            return true;
        }
        let way = at * WAYS + rest % WAYS;
        let to = ways[way];
        if to == 0 {
            ways[way] = n as u16;
            return false;
        }
        at = usize::from(to);
        rest /= WAYS;
    }
    // no key is ahead
    false
}

// Each key, until one stood ahead.
fn key_twice(keys: &[u64], ways: &mut [u16; ALL_WAYS]) -> Option<usize>
    requires keys_len_bound { length keys.now ≤ 16384 }
    requires tree { Tree keys.now ways.old 0 }
    ensures { unwrap_or result (length keys.now) ≡ first_twice keys.now }
{
    for n in 0..keys.len() {
        if stood(keys, ways, n) {
            return Some(n);
        }
    }
    None
}

pub(crate) fn tree_twice(keys: &[u64]) -> Option<usize>
    requires { length keys.now ≤ 16384 }
    ensures { unwrap_or result (length keys.now) ≡ first_twice keys.now }
{
    key_twice(keys, &mut [0; ALL_WAYS])
}
