// The flags of the sets that a card of YANK$$$ names.
ghost use Rattle.std.specs.Prelude.{◌≡◌, map};
ghost use Rattle.words.specs.Spelt.{word_of_name};
ghost use Rattle.words_lines.specs.Directive.{params};
ghost use Rattle.library_yanks.specs.Flags.{names_in, mark, marked, acted};
ghost use Rattle.library_image.specs.Places.{line_in};

use crate::force::is_active;
use library_image::{COLUMNS, line_of, see};
use library_index::Index;

fn mark_number(flags: &mut [u64], n: usize)
    ensures { flags.new ≡ mark flags.old n }
{
    if 0 < n && n < flags.len() {
        flags[n] = 1;
    }
}

fn mark_names(index: &Index, field: &[u8], flags: &mut [u64])
    ensures { flags.new ≡ marked index.now.names.now (map word_of_name (params field.now)) flags.old }
{
    for word in words_lines_asked::names_of(field) {
        mark_number(flags, index.number(word));
    }
}

fn mark_line(index: &Index, line: &[u8], flags: &mut [u64])
    ensures { flags.new ≡ marked index.now.names.now (names_in line.now) flags.old }
{
    if library::asks_yank(words_lines_asked::directive(line)) {
        mark_names(index, words_lines::field_of(line), flags);
    }
}

fn mark_text(index: &Index, cards: &[u64], from: usize, to: usize, flags: &mut [u64])
    ensures { flags.new ≡ marked index.now.names.now (names_in (line_in cards.now from to)) flags.old }
{
    let mut line = [0u8; COLUMNS];
    let n = line_of(cards, from, to, &mut line);
    mark_line(index, &line[..n], flags);
}

// The card at a place.
#[tactic(auto, unfolding(crate::specs::Flags::acted, crate::specs::Flags::in_force))]
pub(crate) fn act_card(index: &Index, cards: &[u64], at: usize, flags: &mut [u64])
    ensures { flags.new ≡ acted index.now.names.now cards.now flags.old at }
{
    let c = see(cards, at);
    let text = c.text;
    if is_active(cards, at, text, flags) {
        mark_text(index, cards, text, c.next, flags);
    }
}
