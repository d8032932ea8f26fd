// Names and cards in a field of parameters (RULES, "Directives", "Names and numbers").
ghost use Rattle.std.specs.Prelude.{◌≡◌, map};
ghost use Rattle.std.specs.Iterator.{YieldsFirst, item_count};
ghost use Rattle.words.specs.Base.{all};
ghost use Rattle.words.specs.Names.{is_name};
ghost use Rattle.words.specs.Spelt.{word_of_name};
ghost use Rattle.words_lines.specs.Directive.{params};
ghost use Rattle.words_lines.specs.Reading.{next_name};
ghost use Rattle.words_lines_asked.specs.Parameters.{not_empty, names_left, card_read, range_read};

use words_lines::{CardName, NameAt, Stop, part_after, part_at};

// The name at a place of a field: one after another, from 0 on.
#[tactic(auto, unfolding(words_lines::specs::Reading::next_name))]
pub fn next_name(field: &[u8], at: usize) -> Option<NameAt>
    ensures { result ≡ next_name field.now at }
{
    if field.len() < at {
        return None;
    }
    let p = part_at(field, at, Stop::Parameter);
    Some(NameAt {
        word: words_names::word_of_name(p),
        next: at + (p.len() + 1),
    })
}

// The names that are left of a field: a name's word, 0 where a parameter is no name.
#[derive(Drop)]
pub struct FieldNames<'a> {
    field: &'a [u8],
    at: usize,
}

impl<'a> Iterator for FieldNames<'a> {
    type Item = u64;

    ghost next_gives = { YieldsFirst names_left };

    ghost remaining = { item_count names_left };

    fn next(&mut self) -> Option<u64> {
        let name = next_name(self.field, self.at)?;
        self.at = name.next;
        Some(name.word)
    }
}

// All names of a field.
pub fn names_of(field: &[u8]) -> FieldNames<'_>
    ensures { names_left result ≡ map word_of_name (params field.now) }
{
    FieldNames { field, at: 0 }
}

pub(crate) fn all_names(field: &[u8]) -> bool
    ensures { result ≡ all is_name (params field.now) }
{
    names_of(field).all(|w| w != 0)
}

pub(crate) fn none_empty(field: &[u8]) -> bool
    ensures { result ≡ all not_empty (params field.now) }
{
    field.split(|b| *b == b',').all(|p| !p.is_empty())
}

// The card that a parameter names.
pub(crate) fn card_of(p: &[u8]) -> Option<CardName>
    ensures { result ≡ card_read p.now }
{
    let name = words_names::word_of_name(part_at(p, 0, Stop::Point));
    let seq = words_names::number_read(part_after(p, Stop::Point));
    if name == 0 || seq == 0 {
        return None;
    }
    Some(CardName { name, seq })
}

// The card that a field names, twice, or the two cards.
#[tactic(auto, unfolding(crate::specs::Parameters::card_read, crate::specs::Parameters::range_read))]
pub(crate) fn range_of(field: &[u8]) -> Option<(CardName, CardName)>
    ensures { result ≡ range_read field.now }
{
    if let Some(card) = card_of(field) {
        return Some((card, card));
    }
    let first = card_of(part_at(field, 0, Stop::Parameter))?;
    let last = card_of(part_after(field, Stop::Parameter))?;
    Some((first, last))
}
