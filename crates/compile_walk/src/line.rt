// A line of the compile file (RULES, "The compile file").
ghost use Rattle.std.specs.Prelude.{◌≡◌, ◌<◌, length};
ghost use Rattle.words.specs.Names.{left_justified};
ghost use Rattle.compile_walk.specs.Lines.{line_for};

// the columns: 72 of the card's line, a blank, 9 of the owner's name, 8 of the sequence number, and byte 10
const TEXT: usize = 72;

const NAME: usize = 9;

const OWNER: usize = TEXT + 1;

const NUMBER: usize = OWNER + NAME;

const END: usize = NUMBER + 8;

pub(crate) const LINE: usize = END + 1;

const BLANK: u8 = b' ';

const NEWLINE: u8 = 10;

// Bytes as they stand, then blanks: one choice for the field, none for each column.
fn put_left(text: &[u8], field: &mut [u8])
    ensures { field.new ≡ left_justified (length field.old) text.now }
{
    let n = library_image::least(text.len(), field.len());
    words_lists::put(&text[..n], field, 0);
    field[n..].fill(BLANK);
}

// The line of a card of this text, its owner's name word and its number.
pub(crate) fn put_line(text: &[u8], name: u64, seq: u64, line: &mut [u8])
    requires { (length line.old ≡ 91) × (seq < 262144) }
    ensures { line.new ≡ line_for text.now name seq }
{
    let mut owner = [BLANK; NAME];
    words_names::name_of_word(name, &mut owner);
    line[TEXT] = BLANK;
    line[END] = NEWLINE;
    put_left(text, &mut line[0..TEXT]);
    put_left(&owner, &mut line[OWNER..NUMBER]);
    words_names::put_number(seq, &mut line[NUMBER..END]);
}
