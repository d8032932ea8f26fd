// The names of a directory as a tree, planted once, so that a name's number does not ask for a walk of all entries.
//
// From each entry four ways go on, by two bits of a name's path at a time, so that a name has two bits more in common with each entry it comes to. Names are words with their
// letters at the high end; a path begins with the remainder by a prime, in which all letters count, so that names that are alike part soon, and ends with the quotient, so that no
// two names of 60 bits share a path: a name comes to 32 entries at most.
ghost use Rattle.std.specs.Prelude.{◌≡◌, ◌≤◌, ◌<◌, length, IfErr};
ghost use Rattle.library_index.specs.Names.{start_of, walked, grown, planted, entry_by};

use crate::search::entry_of;

// a directory has at most 1,023 entries
const ENTRIES: usize = 1024;
// from each entry
const WAYS: usize = 4;

pub const ALL_WAYS: usize = ENTRIES * WAYS;

const PRIME: u64 = 1021;
// of a path, the remainder is in 09-00, the quotient above
const QUOTIENT: u64 = 1024;
// as much of it as there is room for
const QUOTIENTS: u64 = 0o400000000000000000;

#[tactic(auto, unfolding(crate::specs::Names::start_of))]
fn start_of(w: u64) -> u64
    ensures { result ≡ start_of w }
{
    w / PRIME % QUOTIENTS * QUOTIENT + w % PRIME
}

// Where a name's ways through the first n entries end: at the entry of this number, or else with the way where it would be.
fn walk(directory: &[u64], ways: &[u16; ALL_WAYS], n: usize, w: u64) -> Result<usize, usize>
    requires { (n ≤ length directory.now) × (n ≤ 1024) }
    ensures result_bound { IfErr result (λ way. way < 4096) }
    ensures value { result ≡ walked n directory.now ways.now n w 0 (start_of w) }
{
    let mut at: usize = 0;
    let mut rest = start_of(w) as usize;
    // a walk from entry to entry
    while at < n {
        if directory[at] == w {
            return Ok(at + 1);
        }
        let way = at * WAYS + rest % WAYS;
        let to = usize::from(ways[way]);
        if to <= at {
            return Err(way);
        }
        at = to;
        rest /= WAYS;
    }
    // no entry is ahead
    Err(rest % WAYS)
}

// A way leads to the entry after the first n, unless its name stands on one of them.
fn grow(directory: &[u64], ways: &mut [u16; ALL_WAYS], n: usize)
    requires { (n < length directory.now) × (n < 1024) }
    ensures { ways.new ≡ grown directory.now ways.old n }
{
    if let Err(way) = walk(directory, ways, n, directory[n]) {
        ways[way] = n as u16;
    }
}

// The tree of a directory's names, from ways that are all zero.
#[tactic(auto, unfolding(crate::specs::Names::planted))]
pub fn plant(directory: &[u64], ways: &mut [u16; ALL_WAYS])
    ensures { ways.new ≡ planted directory.now ways.old }
{
    for n in 0..ENTRIES.min(directory.len()) {
        grow(directory, ways, n);
    }
}

// The number of a name in the directory, by these ways; 0 where it is not there. A directory of more entries than the ways have room for is searched.
#[tactic(auto, unfolding(crate::specs::Names::entry_by))]
pub fn entry_by(directory: &[u64], ways: &[u16; ALL_WAYS], w: u64) -> usize
    ensures { result ≡ entry_by directory.now ways.now w }
{
    if ENTRIES < directory.len() {
        return entry_of(directory, w);
    }
    walk(directory, ways, directory.len(), w).unwrap_or(0)
}
