// Cards as they stand in an image (RULES, "Cards").
ghost use Rattle.std.specs.Prelude.{◌≡◌, ◌+◌, ◌≤◌, ◌<◌, leb, length, get_or, if◌then◌else◌};
ghost use Rattle.library_image.specs.Places.{text_at, seen_at, star_at, line_in, line_into};

use library::{ACTIVE, FIELD, LAST, NUMBER, Seen, UPPER};

// the most columns of a line
pub const COLUMNS: usize = 80;
// of a text's word, the first of ten codes
const FIRST: u64 = 0o1000000000000000000;

const CODE: u64 = 0o100;
// the code of *
const STAR: u64 = 0o47;

// The word at a place, 0 past the end.
pub fn word_at(image: &[u64], at: usize) -> u64
    ensures { result ≡ get_or image.now at 0 }
{
    image.get(at).copied().unwrap_or(0)
}

// Where a card's text starts: past the first word with bit 59.
fn text_at(image: &[u64], at: usize) -> usize
    ensures upper_bound { (result ≤ length image.now) × (at < length image.now → at < result) }
    ensures value { result ≡ text_at image.now at }
{
    for i in at..image.len() {
        if LAST <= image[i] {
            return i + 1;
        }
    }
    image.len()
}

// The lesser of two places.
pub fn least(a: usize, b: usize) -> usize
    ensures value { result ≡ (if leb a b then a else b) }
    ensures upper_bound { (result ≤ a) × (result ≤ b) }
{
    a.min(b)
}

// The card at a place; past the end nothing stands.
pub fn see(image: &[u64], at: usize) -> Seen
    ensures text_le_next { (result.text ≤ result.next) × ((result.next ≤ length image.now) × (at < length image.now → at < result.text)) }
    ensures seq_bound { (result.seq < 262144) × (result.owner < 65536) }
    ensures value { result ≡ seen_at image.now at }
{
    let w = word_at(image, at);
    let text = text_at(image, at);
    Seen {
        text,
        next: least(text + (w / UPPER % FIELD) as usize, image.len()),
        owner: w % NUMBER,
        seq: w / FIELD % FIELD,
        active: w / ACTIVE % 2 == 1,
    }
}

// Whether a line that starts at a place may begin with *: one that is neither a directive nor a CALL need not be expanded to see that.
pub fn star_at(image: &[u64], at: usize) -> bool
    ensures { result ≡ star_at image.now at }
{
    word_at(image, at) / FIRST % CODE == STAR
}

// The line that the words from `from` up to `to` say: how many columns it has.
pub fn line_of(image: &[u64], from: usize, to: usize, line: &mut [u8; COLUMNS]) -> usize
    ensures upper_bound { result ≤ length line.new }
    ensures value { result ≡ length (line_in image.now from to) }
    ensures line_after { line.new ≡ line_into image.now from to line.old }
{
    match image.get(from..to) {
        Some(words) => words_text_expand::expand(words, line).unwrap_or(0),
        None => 0,
    }
}
