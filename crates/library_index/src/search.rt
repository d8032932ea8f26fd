// The number of a name by a walk of all entries (RULES, "Directory").
ghost use Rattle.std.specs.Prelude.{◌≡◌};
ghost use Rattle.library.specs.Library.{entry_of};

// The number of a name in the directory; 0 where it is not there.
pub fn entry_of(directory: &[u64], w: u64) -> usize
    ensures { result ≡ entry_of directory.now w }
{
    directory
        .iter()
        .position(|name| *name == w)
        .map_or(0, |i| i + 1)
}
