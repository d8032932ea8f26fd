// A directory's names with their tree.
ghost use Rattle.std.specs.Prelude.{◌≡◌};
ghost use Rattle.library.specs.Library.{entry_of};
ghost use Rattle.library_index.specs.Names.{Knows};

use crate::names::{ALL_WAYS, entry_by, plant};

// Names, and ways by which each has its number.
#[derive(Drop)]
pub struct Index<'a> {
    names: &'a [u64],
    ways: [u16; ALL_WAYS],
    ghost knows: { Knows names.now ways },
}

impl<'a> Index<'a> {
    // Plants these names.
    pub fn new(names: &'a [u64]) -> Index<'a>
        ensures { result.names.now ≡ names.now }
    {
        let mut ways = [0; ALL_WAYS];
        plant(names, &mut ways);
        Index { names, ways }
    }

    // The number of a name; 0 where it is not there.
    pub fn number(&self, w: u64) -> usize
        ensures { result ≡ entry_of self.now.names.now w }
    {
        entry_by(self.names, &self.ways, w)
    }
}
