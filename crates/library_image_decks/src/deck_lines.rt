// A line as a deck card's (RULES, "Decks").
ghost use Rattle.std.specs.Prelude.{◌≡◌};
ghost use Rattle.library.specs.Library.{deck_line, deck_asked, is_deck_kind};
ghost use Rattle.library.specs.Asked.{deck_line_of};

use library::DeckLine;
use words_lines::{Kind, Line};

fn deck_asked(line: Line) -> DeckLine
    ensures { result ≡ deck_line_of (deck_asked line) }
{
    match line {
        Line::Deck(w) => DeckLine::Deck(w),
        Line::Comdeck(w) => DeckLine::Common(w),
        _ => DeckLine::BadDeck,
    }
}

fn is_deck_kind(kind: Kind) -> bool
    ensures { result ≡ is_deck_kind kind }
{
    matches!(kind, Kind::Deck | Kind::Comdeck)
}

pub(crate) fn deck_line(line: &[u8]) -> DeckLine
    ensures { result ≡ deck_line_of (deck_line line.now) }
{
    if is_deck_kind(words_lines::kind_of_line(line)) {
        return deck_asked(words_lines_asked::directive(line));
    }
    DeckLine::NotDeck
}
