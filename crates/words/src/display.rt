// The display code (RULES, "Text"): a byte's code and a code's byte, each by the chart as it is printed, its codes in octal: the colon, the letters, the
// digits, the signs.
ghost use Rattle.std.specs.Prelude.{◌≡◌};
ghost use Rattle.words.specs.Display.{code_of, letter};

// how many codes there are, and the answer for a byte that is no character
const SET: u8 = 0o100;

// as many, where a code is a place
const CODES: usize = 0o100;

pub const BLANK: u8 = b' ';

// a blank's code
pub const GAP: u8 = 0o55;

#[tactic(auto, unfolding(crate::specs::Display::code_of))]
pub fn code_of(b: u8) -> u8
    ensures { result ≡ code_of b }
{
    match b {
        b':' => 0o00,
        b'A'..=b'Z' => b - b'A' + 0o01,
        b'0'..=b'9' => b - b'0' + 0o33,
        b'+' => 0o45,
        b'-' => 0o46,
        b'*' => 0o47,
        b'/' => 0o50,
        b'(' => 0o51,
        b')' => 0o52,
        b'$' => 0o53,
        b'=' => 0o54,
        b' ' => 0o55,
        b',' => 0o56,
        b'.' => 0o57,
        b'#' => 0o60,
        b'[' => 0o61,
        b']' => 0o62,
        b'%' => 0o63,
        b'"' => 0o64,
        b'_' => 0o65,
        b'!' => 0o66,
        b'&' => 0o67,
        b'\'' => 0o70,
        b'?' => 0o71,
        b'<' => 0o72,
        b'>' => 0o73,
        b'@' => 0o74,
        b'\\' => 0o75,
        b'^' => 0o76,
        b';' => 0o77,
        _ => SET,
    }
}

// A code's letter; a blank where it is no code.
#[tactic(auto, unfolding(crate::specs::Display::letter))]
pub fn letter_of(c: u8) -> u8
    ensures { result ≡ letter c }
{
    match c {
        0o00 => b':',
        0o01..=0o32 => c - 0o01 + b'A',
        0o33..=0o44 => c - 0o33 + b'0',
        0o45 => b'+',
        0o46 => b'-',
        0o47 => b'*',
        0o50 => b'/',
        0o51 => b'(',
        0o52 => b')',
        0o53 => b'$',
        0o54 => b'=',
        0o55 => b' ',
        0o56 => b',',
        0o57 => b'.',
        0o60 => b'#',
        0o61 => b'[',
        0o62 => b']',
        0o63 => b'%',
        0o64 => b'"',
        0o65 => b'_',
        0o66 => b'!',
        0o67 => b'&',
        0o70 => b'\'',
        0o71 => b'?',
        0o72 => b'<',
        0o73 => b'>',
        0o74 => b'@',
        0o75 => b'\\',
        0o76 => b'^',
        0o77 => b';',
        _ => BLANK,
    }
}

// The same, where the code is a place.
pub fn letter_in(c: usize) -> u8
    ensures { result ≡ letter c }
{
    if CODES <= c {
        return BLANK;
    }
    letter_of(c as u8)
}
