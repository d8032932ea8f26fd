// The words that every library has: the first of its header, and the name of its yank deck.
ghost use Rattle.std.specs.Prelude.{◌≡◌};
ghost use Rattle.library.specs.Image.{header};
ghost use Rattle.library.specs.Library.{reserved};

// of the header, character set 4 in 23-18; two characters stand in 11-00 that a name's word has in 59-48
const CHARACTER_SET: u64 = 0o4000000;

const TO_LOWEST: u64 = 0o10000000000000000;

// Word 1 of a library.
pub fn header_word() -> u64
    ensures { result ≡ header }
{
    words_names::word_of_name(b"CHECK")
        + CHARACTER_SET
        + words_names::word_of_name(b"Y*") / TO_LOWEST
}

// YANK$$$ as a word.
pub fn reserved_word() -> u64
    ensures { result ≡ reserved }
{
    words_names::word_of_name(b"YANK$$$")
}
