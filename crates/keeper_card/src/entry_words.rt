// Entries of the directory (RULES, "Directory").
ghost use Rattle.std.specs.Prelude.{◌≡◌};
ghost use Rattle.keeper_card.specs.Parts.{entry_word};

// The word of an entry, 0 outside the directory.
pub(crate) fn entry_word(image: &[u64], n: u64) -> u64
    ensures { result ≡ entry_word image.now n }
{
    if n == 0 {
        return 0;
    }
    if (library_tables::entries_of(image) as u64) < n {
        return 0;
    }
    // the directory stands after the two words of the header
    library_image::word_at(image, n as usize + 1)
}
