// Whether a card is active under flags of yanked sets (RULES, "When a card is active").
ghost use Rattle.std.specs.Prelude.{◌≡◌, false, [], ◌∷◌, ◌/◌, ◌%◌, ◌^◌};
ghost use Rattle.library.specs.Check.{raw_bytes};
ghost use Rattle.library_yanks.specs.Bytes.{part, flagged, say_byte, say_all};

use library::{FIELD, NUMBER, UPPER};
use library_image::word_at;

// Whether a number is flagged; none beyond the flags is.
pub fn is_flagged(flags: &[u64], n: u64) -> bool
    ensures { result ≡ flagged flags.now n }
{
    word_at(flags, n as usize) == 1
}

// What the bytes so far and this one say of the card's activity.
fn say_byte(flags: &[u64], so: bool, b: u64) -> bool
    ensures { result ≡ say_byte (flagged flags.now) so b }
{
    if b == 0 || is_flagged(flags, b % NUMBER) {
        return so;
    }
    b / NUMBER % 2 == 1
}

fn say_word(flags: &[u64], so: bool, w: u64) -> bool
    ensures { result ≡ say_all (flagged flags.now) so (w / 2 ^ 36 % 2 ^ 18 ∷ w / 2 ^ 18 % 2 ^ 18 ∷ w % 2 ^ 18 ∷ []) }
{
    let a = say_byte(flags, so, w / UPPER % FIELD);
    let b = say_byte(flags, a, w / FIELD % FIELD);
    say_byte(flags, b, w % FIELD)
}

// What the words of a history say, of which the first has one byte.
fn say_history(flags: &[u64], words: &[u64]) -> bool
    ensures { result ≡ say_all (flagged flags.now) false (raw_bytes words.now) }
{
    let [first, further @ ..] = words else {
        return false;
    };
    let mut so = say_byte(flags, false, *first % FIELD);
    for word in further {
        so = say_word(flags, so, *word);
    }
    so
}

// Whether the card whose words from `at` up to `text` are its history's is active.
pub fn is_active(image: &[u64], at: usize, text: usize, flags: &[u64]) -> bool
    ensures { result ≡ say_all (flagged flags.now) false (raw_bytes (part at text image.now)) }
{
    match image.get(at..text.min(image.len())) {
        Some(words) => say_history(flags, words),
        None => false,
    }
}
