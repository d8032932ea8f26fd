// The codes of a line (RULES, "Text"): runs of blanks, and the signs between them.
ghost use Rattle.std.specs.Prelude.{◌≡◌, [], ◌∷◌, ◌++◌, map, ◌+◌, ◌≤◌, ◌<◌, length, take, drop};
ghost use Rattle.words.specs.Display.{code_of};
ghost use Rattle.words.specs.Text.{short_run, blanks, sign, squeeze, compress};

use words::{BLANK, GAP, code_of};

// the most blanks that one run stands for
const RUN: usize = 64;

// The space and a place in it, and the next place as the answer: a cursor that held both would have the same clauses.
fn put_one(a: u8, codes: &mut [u8], at: usize) -> usize
    requires { at < length codes.old }
    ensures value { result ≡ at + 1 }
    ensures codes_after { take result codes.new ≡ take at codes.old ++ (a ∷ []) }
{
    codes[at] = a;
    at + 1
}

fn put_two(a: u8, b: u8, codes: &mut [u8], at: usize) -> usize
    requires { at + 1 < length codes.old }
    ensures value { result ≡ at + 2 }
    ensures codes_after { take result codes.new ≡ take at codes.old ++ (a ∷ b ∷ []) }
{
    let next = put_one(a, codes, at);
    put_one(b, codes, next)
}

// A run of at most 64 blanks.
fn put_run(n: usize, codes: &mut [u8], at: usize) -> usize
    requires n_bound { n ≤ 64 }
    requires n_in_bounds { at + n ≤ length codes.old }
    ensures value { result ≡ at + length (short_run n) }
    ensures codes_after { take result codes.new ≡ take at codes.old ++ short_run n }
{
    match n {
        0 => at,
        1 => put_one(GAP, codes, at),
        2 => put_two(GAP, GAP, codes, at),
        _ => put_two(0, (n - 1) as u8, codes, at),
    }
}

// A run of blanks inside a line, which has fewer than 128.
fn put_blanks(n: usize, codes: &mut [u8], at: usize) -> usize
    requires n_bound { n ≤ 128 }
    requires n_in_bounds { at + n ≤ length codes.old }
    ensures value { result ≡ at + length (blanks n) }
    ensures codes_after { take result codes.new ≡ take at codes.old ++ blanks n }
{
    if n <= RUN {
        return put_run(n, codes, at);
    }
    let next = put_two(0, 0o77, codes, at);
    put_run(n - RUN, codes, next)
}

fn put_sign(c: u8, codes: &mut [u8], at: usize) -> usize
    requires { at + 1 < length codes.old }
    ensures value { result ≡ at + length (sign c []) }
    ensures codes_after { take result codes.new ≡ take at codes.old ++ sign c [] }
{
    if c == 0 {
        put_two(0, 1, codes, at)
    } else {
        put_one(c, codes, at)
    }
}

// The code of a leading blank, which no run takes in: answers the columns that it stands for.
fn put_lead(line: &[u8], codes: &mut [u8]) -> usize
    requires { 0 < length codes.old }
    ensures upper_bound { result ≤ 1 }
    ensures upper_bound_2 { result ≤ length line.now }
    ensures line_after { take result codes.new ++ squeeze 0 (map code_of (drop result line.now)) ≡ compress (map code_of line.now) }
{
    if line.is_empty() {
        return 0;
    }
    if line[0] == BLANK {
        return put_one(GAP, codes, 0);
    }
    0
}

// The codes of a line, with n blanks passed that are not written yet: they are none at the line's end.
pub(crate) fn put_line(line: &[u8], codes: &mut [u8]) -> usize
    requires line_len_bound { length line.now ≤ 80 }
    requires codes_len { length codes.old ≡ 160 }
    ensures upper_bound { result ≤ 160 }
    ensures codes_after { take result codes.new ≡ compress (map code_of line.now) }
{
    let mut at = put_lead(line, codes);
    let mut n = 0;
    for b in &line[at..] {
        if *b == BLANK {
            n += 1;
        } else {
            let next = put_blanks(n, codes, at);
            at = put_sign(code_of(*b), codes, next);
            n = 0;
        }
    }
    at
}
