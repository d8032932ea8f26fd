// Names as words, and decimal numbers (RULES, "Names and numbers", "The compile file").
ghost use Rattle.std.specs.Prelude.{◌≡◌, ◌+◌, ◌-◌, ◌/◌, ◌%◌, ◌^◌, ◌≤◌, ◌<◌, length, take, drop, replicate};
ghost use Rattle.words.specs.Names.{number_read, numeral};
ghost use Rattle.words.specs.Spelt.{word_of_name, name_length, name_into, number_fits, number_into};

use words::{BASE, BITS, BLANK, GAP, TEN, code_of, letter_of, power, wide};

const NAME: usize = 9;

// the codes of a name are above that of the colon and below that of the blank
const COLON: u8 = 0;

// the most digits of a number as it is read, the largest, and the most digits of any
const READ: usize = 6;

const LARGEST: u64 = 262143;

const DIGITS: usize = 20;

const ZERO: u8 = b'0';

const NINE: u8 = b'9';

pub fn word_of_name(name: &[u8]) -> u64
    ensures { result ≡ word_of_name name.now }
{
    if name.is_empty() || NAME < name.len() {
        return 0;
    }
    let mut w = 0;
    for b in name {
        let c = code_of(*b);
        if c <= COLON || GAP <= c {
            return 0;
        }
        w = w * BASE + wide(c);
    }
    w * power(TEN - name.len())
}

fn code_in(word: u64, place: usize) -> u8
    requires { place < 10 }
    ensures { result ≡ word / 64 ^ (9 - place) % 64 }
{
    ((word >> (BITS * (TEN - 1 - place))) % BASE) as u8
}

// How many letters the name has whose word it is; 0 where it is no name's. The letters' codes stand in the word, so that the chart is not asked.
fn name_length(word: u64) -> usize
    ensures { result ≡ name_length word }
{
    let mut w = 0;
    for i in 0..TEN {
        let c = code_in(word, i);
        if c == COLON {
            return if w * power(TEN - i) == word { i } else { 0 };
        }
        if c >= GAP {
            return 0;
        }
        w = w * BASE + wide(c);
    }
    0
}

// The n letters of a name's word.
fn put_letters(word: u64, n: usize, name: &mut [u8])
    requires n_value { n ≡ name_length word }
    requires name_len { length name.old ≡ 9 }
    ensures { name.new ≡ name_into word name.old }
{
    for i in 0..n {
        name[i] = letter_of(code_in(word, i));
    }
}

pub fn name_of_word(word: u64, name: &mut [u8; NAME]) -> usize
    ensures value { result ≡ name_length word }
    ensures name_after { name.new ≡ name_into word name.old }
{
    let n = name_length(word);
    put_letters(word, n, name);
    n
}

pub fn number_read(digits: &[u8]) -> u64
    ensures { result ≡ number_read digits.now }
{
    if READ < digits.len() {
        return 0;
    }
    let mut n = 0;
    for d in digits {
        if *d < ZERO || NINE < *d {
            return 0;
        }
        n = n * 10 + wide(*d - ZERO);
    }
    if LARGEST < n {
        return 0;
    }
    n
}

fn digit(n: u64) -> u8
    requires { n < 10 }
    ensures { result ≡ 48 + n }
{
    ZERO + n as u8
}

// The digits of a number, at the end of the space: answers where they start.
fn put_digits(n: u64, space: &mut [u8]) -> usize
    requires { length space.old ≡ 20 }
    ensures upper_bound { result ≤ 20 }
    ensures space_after { drop result space.new ≡ numeral n }
{
    let mut m = n;
    let mut at = DIGITS - 1;
    // no end to count to: as many turns as the number has digits
    while 10 <= m {
        space[at] = digit(m % 10);
        m /= 10;
        at -= 1;
    }
    space[at] = digit(m);
    at
}

// Blanks in the first n columns.
fn put_gap(n: usize, line: &mut [u8])
    requires { n ≤ length line.old }
    ensures { take n line.new ≡ replicate n 32 }
{
    line[..n].fill(BLANK);
}

pub fn put_number(n: u64, field: &mut [u8]) -> bool
    ensures value { result ≡ number_fits n (length field.old) }
    ensures field_after { field.new ≡ number_into n field.old }
{
    let mut digits = [0u8; DIGITS];
    let start = put_digits(n, &mut digits);
    let count = DIGITS - start;
    if field.len() < count {
        return false;
    }
    let gap = field.len() - count;
    put_gap(gap, field);
    words_lists::put(&digits[start..], field, gap);
    true
}
