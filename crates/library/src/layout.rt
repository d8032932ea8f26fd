// Where things stand in an image and in the words of a card (RULES, "Header", "Cards"), and how many there may be (RULES, "Limits").

// the second word of an image has the counts of entries in 35-18 and of decks in 17-00; then the directory stands
pub const COUNTS: usize = 1;

pub const DIRECTORY: usize = 2;
// an entry that is purged
pub const PURGED: u64 = 0o20;
// bit 59, in the last word of a history
pub const LAST: u64 = 0o40000000000000000000;
// bit 58 of a card's first word, activity
pub const ACTIVE: u64 = 0o20000000000000000000;
// bit 54: above it a further history word has bit 59 or nothing; the first word has activity too, and four bits that are zero
pub const ABOVE_BYTES: u64 = 0o1000000000000000000;
// what one more is worth in 53-36: the words of text, or the first of three bytes
pub const UPPER: u64 = 0o1000000000000;
// and in 35-18: the sequence number, or the second byte; so a field of 18 bits, as a history byte is one, ends below it
pub const FIELD: u64 = 0o1000000;
// of a byte: yanked in 17, activating in 16, and the number of an entry below that
pub const YANKED: u64 = 0o400000;

pub const ACTIVATING: u64 = 0o200000;

pub const NUMBER: u64 = ACTIVATING;

// rows 1, 3 and 5
pub const MOST_WORDS: usize = 65536;

pub const MOST_ENTRIES: usize = 1023;

pub const MOST_DECKS: usize = 255;

pub const MOST_CARDS: usize = 16383;
// 64 history bytes: one in the first word, and three in each of 21 more
pub const MOST_HEADS: usize = 22;
