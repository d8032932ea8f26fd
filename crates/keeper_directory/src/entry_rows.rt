// The directory of a library, a row for each entry (RULES, "Directory", "When a card is active").
ghost use Rattle.std.specs.Prelude.{◌≡◌, ◌++◌, ◌*◌, ◌≤◌, ◌<◌, length, drop};
ghost use Rattle.library.specs.Check.{directory_count, directory_of};
ghost use Rattle.library_tables.specs.Found.{Sized, Tabled};
ghost use Rattle.library_yanks.specs.Bytes.{part};
ghost use Rattle.library_image_decks.specs.Decks.{deck_end};
ghost use Rattle.library_yanks.specs.Flags.{settled_flags};
ghost use Rattle.keeper_card.specs.Naming.{told, show_into};
ghost use Rattle.keeper_card.specs.Parts.{AnswersOf};
ghost use Rattle.keeper_directory.specs.Keeper.{listed, listing, rows_up_to, purged_or, yank_mark};
ghost use Rattle.keeper_directory.specs.Parts.{RowsOf, row_bytes, row_at};

use crate::kinds::{SET, put_kinds};
use keeper_card::ShowRefused;
use library::DIRECTORY;

// a row: the name in 9 columns, blanks after it, what the entry is, whether it is yanked
const NAME: usize = 9;

const KIND: usize = NAME;

const MARK: usize = KIND + 1;

const ROW: usize = MARK + 1;

const BLANK: u8 = b' ';

const PURGED: u8 = b'P';

const YANKED: u8 = b'Y';

// a place for each directory number, 0 to 1,023
const ENTRIES: usize = 1024;

fn kind_byte(w: u64, kind: u8) -> u8
    ensures { result ≡ purged_or w kind }
{
    if w == library::PURGED { PURGED } else { kind }
}

fn mark_byte(yanked: bool) -> u8
    ensures { result ≡ yank_mark yanked }
{
    if yanked { YANKED } else { BLANK }
}

// The name in its columns.
fn put_name(name: &[u8], row: &mut [u8])
    requires { (length name.now ≡ 9) × (length row.old ≡ 11) }
    ensures { row.new ≡ name.now ++ drop 9 row.old }
{
    row[..NAME].copy_from_slice(name);
}

// The row of an entry of this word and kind, yanked or not.
fn put_row(w: u64, kind: u8, yanked: bool, row: &mut [u8])
    requires { length row.old ≡ 11 }
    ensures { row.new ≡ row_bytes w kind yanked }
{
    let mut name = [BLANK; NAME];
    words_names::name_of_word(w, &mut name);
    put_name(&name, row);
    row[KIND] = kind_byte(w, kind);
    row[MARK] = mark_byte(yanked);
}

// A row for each word of the directory.
fn put_rows(directory: &[u64], kinds: &[u8], flags: &[u64; ENTRIES], rows: &mut [u8])
    requires { (length directory.now * 11 ≤ length rows.old) × ((length directory.now < length kinds.now) × (length directory.now < 1024)) }
    ensures { rows.new ≡ rows_up_to (row_at directory.now kinds.now flags.now) (length directory.now) ++ drop (length directory.now * 11) rows.old }
{
    for (i, w) in directory.iter().enumerate() {
        let at = i * ROW;
        put_row(*w, kinds[i + 1], flags[i + 1] == 1, &mut rows[at..at + ROW]);
    }
}

// The flags of the yanked sets, from the cards of YANK$$$, which stand from `from` up to the first deck card.
fn put_flags(image: &[u64], directory: &[u64], from: usize, flags: &mut [u64])
    requires { from ≤ length image.now }
    ensures { flags.new ≡ settled_flags directory.now (part from (deck_end image.now from) image.now) (length flags.old) }
{
    let end = library_image_decks::deck_end(image, from);
    library_yanks::settle(directory, &image[from..end], flags);
}

// The rows of an image with this directory that the check accepts.
fn put_directory(image: &[u64], directory: &[u64], rows: &mut [u8])
    requires tabled { Tabled image.now }
    requires directory_value { (directory.now ≡ directory_of image.now) × (length directory.now ≡ directory_count image.now) }
    requires directory_in_bounds { length directory.now * 11 ≤ length rows.old }
    ensures { RowsOf image.now rows.old rows.new }
{
    let mut kinds = [SET; ENTRIES];
    let mut flags = [0u64; ENTRIES];
    let from = library_image_decks::cards_place(image);
    put_kinds(image, from, &mut kinds);
    put_flags(image, directory, from, &mut flags);
    put_rows(directory, &kinds, &flags, rows);
}

// The directory of an image that the check accepts.
fn directory_sound(image: &[u64], rows: &mut [u8]) -> Result<usize, ShowRefused>
    requires sized { Sized image.now }
    requires tabled { Tabled image.now }
    ensures { AnswersOf image.now (listed (length rows.old)) result rows.old rows.new }
{
    let n = library_tables::entries_of(image);
    if rows.len() < n * ROW {
        return Err(ShowRefused::Space);
    }
    put_directory(image, &image[DIRECTORY..DIRECTORY + n], rows);
    Ok(n)
}

pub fn directory(image: &[u64], rows: &mut [u8]) -> Result<usize, ShowRefused>
    ensures answer { result ≡ told (listing image.now (length rows.old)) }
    ensures space { rows.new ≡ show_into (listing image.now (length rows.old)) rows.old }
{
    library_check::check(image)?;
    directory_sound(image, rows)
}
