// The fresh library (RULES, "Fresh library").
ghost use Rattle.std.specs.Prelude.{◌≡◌, length};
ghost use Rattle.library_fresh.specs.Fresh.{freshing, fresh_into};

// the header, the counts, YANK$$$
const WORDS: usize = 3;

// the second word: no entry, and one deck
const COUNTS: u64 = 1;

// Writes it, and answers how many words that takes; nothing is written where the space is shorter.
pub fn fresh(space: &mut [u64]) -> Option<usize>
    ensures answer { result ≡ freshing (length space.old) }
    ensures space { space.new ≡ fresh_into space.old }
{
    if space.len() < WORDS {
        return None;
    }
    space[0] = library::header_word();
    space[1] = COUNTS;
    space[2] = library::reserved_word();
    Some(WORDS)
}
