// Row 8: each card of YANK$$$ is a well-formed YANK, and each name on it is a set's, with a number below the card's owner.
ghost use Rattle.std.specs.Prelude.{◌≡◌, ◌≤◌, length};
ghost use Rattle.words.specs.Base.{all};
ghost use Rattle.words_lines.specs.Directive.{params};
ghost use Rattle.library_image.specs.Places.{line_in};
ghost use Rattle.library_check.specs.Rows.{ok_name, ok_param, ok_yank_line, Row8};

use library::Seen;
use library_image::{COLUMNS, line_of, see};
use library_index::Index;

fn name_ok(directory: &Index, list: &Index, own: u64, w: u64) -> bool
    ensures { result ≡ ok_name directory.now.names.now list.now.names.now own w }
{
    let n = directory.number(w);
    0 < n && (n as u64) < own && list.number(w) == 0
}

fn names_ok(directory: &Index, list: &Index, own: u64, field: &[u8]) -> bool
    ensures { result ≡ all (ok_param directory.now.names.now list.now.names.now own) (params field.now) }
{
    words_lines_asked::names_of(field).all(|w| name_ok(directory, list, own, w))
}

fn yank_line_ok(directory: &Index, list: &Index, own: u64, line: &[u8]) -> bool
    ensures { result ≡ ok_yank_line directory.now.names.now list.now.names.now own line.now }
{
    library::asks_yank(words_lines_asked::directive(line))
        && names_ok(directory, list, own, words_lines::field_of(line))
}

fn yank_ok(image: &[u64], directory: &Index, list: &Index, c: Seen) -> bool
    ensures { result ≡ ok_yank_line directory.now.names.now list.now.names.now c.owner (line_in image.now c.text c.next) }
{
    let mut line = [0u8; COLUMNS];
    let n = line_of(image, c.text, c.next, &mut line);
    yank_line_ok(directory, list, c.owner, &line[..n])
}

// Row 8 of the cards up to `end`, where YANK$$$ ends. Not inlined, so that its names are given back before the check goes on.
#[inline(never)]
pub(crate) fn yanks_fault(
    image: &[u64],
    directory: &[u64],
    list: &[u64],
    from: usize,
    end: usize,
) -> Option<usize>
    requires { end ≤ length image.now }
    ensures { Row8 directory.now list.now image.now from end result }
{
    let names = Index::new(directory);
    let decks = Index::new(list);
    let mut at = from;
    // a walk from card to card
    while at < end {
        let c = see(image, at);
        if !yank_ok(image, &names, &decks, c) {
            return Some(at);
        }
        at = c.next;
    }
    None
}
