// What a card asks for when the compile file is written (RULES, "The compile file"; rows 40 to 43).
ghost use Rattle.std.specs.Prelude.{◌≡◌, ◌<◌};
ghost use Rattle.compile_walk.specs.Steps.{find_row, open_at, asked_of};

use crate::Stop;
use library_image_decks::COMMON;
use words_lines::Call;

// so many calls are opened at most
const MOST_CALLS: usize = 4096;

// Where the cards of a deck stand, from a place up to another.
#[derive(Clone, Copy, PartialEq, Eq)]
pub(crate) struct Cards {
    pub(crate) from: usize,
    pub(crate) to: usize,
}

// The cards of the deck of this name, from the table: 40 where there is none, 41 where it is YANK$$$ or a normal one.
fn find_row(table: &[u64], w: u64) -> Result<Cards, Stop>
    ensures { result ≡ find_row w table.now }
{
    if w == library::reserved_word() {
        return Err(Stop::NotCommon);
    }
    let mut rows = table;
    while let [name, from, to, kind, more @ ..] = rows {
        if *name == w {
            if *kind == COMMON {
                return Ok(Cards {
                    from: *from as usize,
                    to: *to as usize,
                });
            }
            return Err(Stop::NotCommon);
        }
        rows = more;
    }
    Err(Stop::NoDeck)
}

// A deck that was found, with so many levels left: 42 where there is none, then 43.
fn open_at(cards: Cards, depth: usize, calls: usize) -> Result<Option<Cards>, Stop>
    ensures { result ≡ open_at cards depth calls }
{
    if depth == 0 {
        return Err(Stop::Deep);
    }
    if calls < MOST_CALLS {
        return Ok(Some(cards));
    }
    Err(Stop::Many)
}

// What a line asks for: the cards of a common deck, or nothing, and then it is written.
pub(crate) fn asks(
    table: &[u64],
    line: &[u8],
    depth: usize,
    calls: usize,
) -> Result<Option<Cards>, Stop>
    ensures { result ≡ asked_of table.now line.now depth calls }
{
    match words_lines::call_of(line) {
        Call::Not => Ok(None),
        Call::Malformed => Err(Stop::NoDeck),
        Call::Of(w) => open_at(find_row(table, w)?, depth, calls),
    }
}
