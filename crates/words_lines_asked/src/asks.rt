// What a line asks (RULES, "Lines", "Directives"; rows 20 to 23).
ghost use Rattle.std.specs.Prelude.{◌≡◌, true, ℕ, ◌^◌, ◌<◌};
ghost use Rattle.words_lines.specs.Directive.{one_name, one_card, range, asks, asked, directive, line_number};
ghost use Rattle.words_lines.specs.declared.CardName.{CardName};
ghost use Rattle.words_lines.specs.declared.Line.{Line};

use crate::names::{all_names, card_of, none_empty, range_of};
use words_lines::{CardName, Kind, Line, Stop, part_at};

const COLUMNS: usize = 80;

// One name; where more parameters follow it, `more`.
fn one_name<F: FnOnce(u64) -> Line>(field: &[u8], ask: F, more: Line) -> Line
    requires { F.IsAlwaysCallable ask }
    ensures { (says : ℕ → Line) → ((w : ℕ) (r : Line) → w < 2 ^ 64 → F.post ask w r → r ≡ says w) → result ≡ one_name says more field.now }
{
    let word = words_names::word_of_name(field);
    if word != 0 {
        return ask(word);
    }
    let first = words_names::word_of_name(part_at(field, 0, Stop::Parameter));
    if first != 0 && none_empty(field) {
        return more;
    }
    Line::Malformed
}

fn one_card<F: FnOnce(CardName) -> Line>(field: &[u8], ask: F) -> Line
    requires { F.IsAlwaysCallable ask }
    ensures { (says : CardName → Line) → ((a : CardName) (r : Line) → F.post ask a r → r ≡ says a) → result ≡ one_card says field.now }
{
    match card_of(field) {
        Some(card) => ask(card),
        None => Line::Malformed,
    }
}

// One card, or two.
fn range<F: FnOnce(CardName, CardName) -> Line>(field: &[u8], ask: F) -> Line
    requires { F.IsAlwaysCallable ask }
    ensures { (says : CardName → CardName → Line) → ((a b : CardName) (r : Line) → F.post ask a b r → r ≡ says a b) → result ≡ range says field.now }
{
    match range_of(field) {
        Some((first, last)) => ask(first, last),
        None => Line::Malformed,
    }
}

fn asks_of(kind: Kind, field: &[u8]) -> Line
    ensures { result ≡ asks kind true field.now }
{
    match kind {
        Kind::Text => Line::Text,
        Kind::Skipped => Line::Skipped,
        Kind::NotCarried => Line::NotCarried,
        // a second parameter is row 22 here, and row 23 for COMDECK and IDENT
        Kind::Deck => one_name(field, Line::Deck, Line::Malformed),
        Kind::Comdeck => one_name(field, Line::Comdeck, Line::NotCarried),
        Kind::Ident => one_name(field, Line::Ident, Line::NotCarried),
        Kind::Insert => one_card(field, Line::Insert),
        Kind::Before => one_card(field, Line::Before),
        Kind::Delete => range(field, Line::Delete),
        Kind::Restore => range(field, Line::Restore),
        Kind::Yank => {
            if all_names(field) {
                Line::Yank
            } else {
                Line::Malformed
            }
        }
    }
}

fn asked_of(line: &[u8]) -> Line
    ensures { result ≡ asked line.now }
{
    let kind = words_lines::kind_of_line(line);
    if words_lines::is_clean(line) {
        return asks_of(kind, words_lines::field_of(line));
    }
    // what else follows spoils the parameters: as if there were none
    asks_of(kind, b"")
}

#[tactic(auto, unfolding(words_lines::specs::Directive::directive))]
pub fn directive(line: &[u8]) -> Line
    ensures { result ≡ directive line.now }
{
    if !words::in_set(line) {
        return Line::Outside;
    }
    if COLUMNS < line.len() {
        return Line::Long;
    }
    asked_of(line)
}

// The table's number of a line that is refused for its form; 0 of any other.
pub fn line_number(l: Line) -> u64
    ensures { result ≡ line_number l }
{
    match l {
        Line::Outside => 20,
        Line::Long => 21,
        Line::Malformed => 22,
        Line::NotCarried => 23,
        _ => 0,
    }
}
