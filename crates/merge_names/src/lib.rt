// A name that both directories of a merge have (row 37).
#![tactic(auto)]

ghost use Rattle.std.specs.Prelude.{◌≡◌};
ghost use Rattle.words.specs.Base.{place_from};
ghost use Rattle.library.specs.Library.{has_name};
ghost use Rattle.merge_names.specs.Common.{or_none};

use library::{DIRECTORY, PURGED};
use library_index::Index;

// Whether the first directory has an entry's name; a purged entry is no name.
fn is_shared(first: &Index, w: u64) -> bool
    ensures { result ≡ has_name first.now.names.now w }
{
    w != PURGED && first.number(w) != 0
}

// Where the second directory has the first name that the first has too, as a word of the second image, which is none of the header's; 0 where it has none. Not inlined, so that
// the merge does not hold its index while a library is checked.
#[inline(never)]
pub fn shared_name(first: &[u64], second: &[u64]) -> usize
    ensures { result ≡ or_none (place_from (has_name first.now) 2 second.now) }
{
    let index = Index::new(first);
    for (i, w) in second.iter().enumerate() {
        if is_shared(&index, *w) {
            return DIRECTORY + i;
        }
    }
    0
}
