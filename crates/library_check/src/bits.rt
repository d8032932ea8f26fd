// Row 9: stored yank and activity bits against the histories (RULES, "When a card is active").
ghost use Rattle.std.specs.Prelude.{◌≡◌, [], ◌∷◌, ◌/◌, ◌%◌, ◌^◌, ◌≤◌, ◌<◌, length};
ghost use Rattle.words.specs.Base.{all};
ghost use Rattle.library.specs.Check.{raw_bytes};
ghost use Rattle.library_yanks.specs.Bytes.{part, flagged};
ghost use Rattle.library_check.specs.Rows.{ok_bit, ok_card_bits, Row9};

use library::{FIELD, NUMBER, Seen, UPPER, YANKED};
use library_yanks::{is_active, is_flagged};

fn bit_ok(flags: &[u64], b: u64) -> bool
    ensures { result ≡ ok_bit (flagged flags.now) b }
{
    b == 0 || (b / YANKED == 1) == is_flagged(flags, b % NUMBER)
}

fn word_ok(flags: &[u64], w: u64) -> bool
    ensures { result ≡ all (ok_bit (flagged flags.now)) (w / 2 ^ 36 % 2 ^ 18 ∷ w / 2 ^ 18 % 2 ^ 18 ∷ w % 2 ^ 18 ∷ []) }
{
    bit_ok(flags, w / UPPER % FIELD) && bit_ok(flags, w / FIELD % FIELD) && bit_ok(flags, w % FIELD)
}

// The words of a history, of which the first has one byte.
fn history_ok(flags: &[u64], words: &[u64]) -> bool
    ensures { result ≡ all (ok_bit (flagged flags.now)) (raw_bytes words.now) }
{
    let [first, further @ ..] = words else {
        return true;
    };
    if !bit_ok(flags, *first % FIELD) {
        return false;
    }
    for word in further {
        if !word_ok(flags, *word) {
            return false;
        }
    }
    true
}

fn card_bits_ok(image: &[u64], at: usize, c: Seen, flags: &[u64]) -> bool
    requires { (at < c.text) × (c.text ≤ length image.now) }
    ensures { result ≡ ok_card_bits (flagged flags.now) c.active (raw_bytes (part at c.text image.now)) }
{
    c.active == is_active(image, at, c.text, flags) && history_ok(flags, &image[at..c.text])
}

pub(crate) fn bits_fault(image: &[u64], from: usize, flags: &[u64]) -> Option<usize>
    ensures { Row9 image.now from (flagged flags.now) result }
{
    let mut at = from;
    // a walk from card to card
    while at < image.len() {
        let c = library_image::see(image, at);
        if !card_bits_ok(image, at, c, flags) {
            return Some(at);
        }
        at = c.next;
    }
    None
}
