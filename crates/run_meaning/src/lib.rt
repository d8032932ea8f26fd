// The corrections of a library, without their code: what a run refuses and the table's numbers of its answer, the next line, and the next card's number.
#![tactic(auto)]

ghost use Rattle.std.specs.Prelude.{◌≡◌, length};
ghost use Rattle.words_lines.specs.FirstLine.{line_after};
ghost use Rattle.run_meaning.specs.Numbering.{number_after};
ghost use Rattle.run_meaning.specs.Run.{why_number, ran_number, ran_value};
ghost use Rattle.run_meaning.specs.declared.RunRefused.TheVariants.{Library as OfLibrary};

use library::Refusal;

// Why a stream is refused: rows 19 to 32 of the table.
#[derive(Clone, Copy, PartialEq, Eq)]
pub enum Why {
    // the stream is over 262,144 bytes
    Stream,
    // a byte that is no character
    Outside,
    // a line over 80 columns
    Long,
    // a directive's form
    Malformed,
    // a directive that is not carried
    NotCarried,
    // text without a place, or a correction outside a set
    Nowhere,
    // a new name that is known already, or reserved
    Known,
    // a YANK of a name that is unknown
    Unknown,
    // a YANK of a deck, of YANK$$$ or of the set itself
    NoSet,
    // a card not found
    NoCard,
    // a range backwards
    Backwards,
    // a deck card in BEFORE or in a range, or text in YANK$$$
    Barred,
    // a limit of the library would be passed
    Limit,
    // the new library has more words than the space
    Space,
}

// What a run refuses: the library, with its fault and the place, or the stream, with the reason and the line.
#[derive(Clone, Copy, PartialEq, Eq)]
pub enum RunRefused {
    Library(Refusal),
    Stream(Why, usize),
}

impl From<Refusal> for RunRefused {
    ghost from_gives = { λ r e. e ≡ OfLibrary r };

    fn from(r: Refusal) -> RunRefused {
        RunRefused::Library(r)
    }
}

// The row of the table.
pub fn why_number(y: Why) -> u64
    ensures { result ≡ why_number y }
{
    match y {
        Why::Stream => 19,
        Why::Outside => 20,
        Why::Long => 21,
        Why::Malformed => 22,
        Why::NotCarried => 23,
        Why::Nowhere => 24,
        Why::Known => 25,
        Why::Unknown => 26,
        Why::NoSet => 27,
        Why::NoCard => 28,
        Why::Backwards => 29,
        Why::Barred => 30,
        Why::Limit => 31,
        Why::Space => 32,
    }
}

// 0, or the row of the table.
pub fn ran_number(r: Result<usize, RunRefused>) -> u64
    ensures { result ≡ ran_number r }
{
    match r {
        Ok(_) => 0,
        Err(RunRefused::Library(f)) => library::fault_number(f.fault),
        Err(RunRefused::Stream(y, _)) => why_number(y),
    }
}

// The words written, or the place.
pub fn ran_value(r: Result<usize, RunRefused>) -> u64
    ensures { result ≡ ran_value r }
{
    match r {
        Ok(n) => n as u64,
        Err(RunRefused::Library(f)) => f.place as u64,
        Err(RunRefused::Stream(_, n)) => n as u64,
    }
}

// Past any stream (19); up to here a place, a line and its end fit a number.
const FARTHEST: usize = 1 << 62;

// Where the line after the one at `at` starts, past the byte that ends it; a place past any stream stays where it is.
pub fn line_after(at: usize, line: &[u8]) -> usize
    ensures { result ≡ line_after at (length line.now) }
{
    if FARTHEST < at {
        return at;
    }
    at + line.len() + 1
}

// the largest number of a card
const LARGEST: u64 = 262143;

// The number of a unit's next card, after the one with this number; past any number it stays.
pub fn number_after(seq: u64) -> u64
    ensures { result ≡ number_after seq }
{
    if LARGEST < seq {
        return seq;
    }
    seq + 1
}
