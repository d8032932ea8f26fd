// The line of a refusal (RULES, "The compile program"): REFUSED, the number and the place, a blank between each two.
ghost use Rattle.std.specs.Prelude.{◌≡◌, [], ◌∷◌, ◌++◌, ◌+◌, ◌≤◌, length};
ghost use Rattle.words.specs.Names.{numeral};
ghost use Rattle.compile.specs.Compile.{refused_line, card_place};
ghost use Rattle.compile_file.specs.Written.{Wrote, after_blanks};
ghost use Rattle.words_lists.specs.Over.{put_at};

// the most digits of any number
const DIGITS: usize = 20;

const BLANK: u8 = b' ';

const NEWLINE: u8 = 10;

// Puts a text at a place: where it ends.
fn put_text(text: &[u8], out: &mut [u8], at: usize) -> usize
    requires { at + length text.now ≤ length out.old }
    ensures value { result ≡ at + length text.now }
    ensures out_after { out.new ≡ put_at at text.now out.old }
{
    words_lists::put(text, out, at);
    at + text.len()
}

// A field without the blanks ahead of its number.
fn digits_in(field: &[u8]) -> &[u8]
    ensures { result.now ≡ after_blanks field.now }
{
    let mut rest = field;
    while let [BLANK, more @ ..] = rest {
        rest = more;
    }
    rest
}

// Puts a number at a place, as decimals: where they end.
fn put_numeral(n: u64, out: &mut [u8], at: usize) -> usize
    requires { at + 20 ≤ length out.old }
    ensures value { (result ≡ at + length (numeral n)) × (result ≤ at + 20) }
    ensures out_after { out.new ≡ put_at at (numeral n) out.old }
{
    let mut field = [BLANK; DIGITS];
    words_names::put_number(n, &mut field);
    put_text(digits_in(&field), out, at)
}

// The same, and a byte after it.
fn put_number(n: u64, then: u8, out: &mut [u8], at: usize) -> usize
    requires { at + 21 ≤ length out.old }
    ensures value { (result ≡ at + length (numeral n ++ (then ∷ []))) × (result ≤ at + 21) }
    ensures out_after { out.new ≡ put_at at (numeral n ++ (then ∷ [])) out.old }
{
    let end = put_numeral(n, out, at);
    out[end] = then;
    end + 1
}

pub(crate) fn put_refused(n: u64, place: u64, out: &mut [u8]) -> usize
    requires { 50 ≤ length out.old }
    ensures { Wrote (refused_line n (numeral place)) result out.old out.new }
{
    let number = put_text(b"REFUSED ", out, 0);
    let after = put_number(n, BLANK, out, number);
    put_number(place, NEWLINE, out, after)
}

// The same where the place is a card: its owner's number, a blank, its sequence number.
pub(crate) fn put_refused_card(n: u64, owner: u64, seq: u64, out: &mut [u8]) -> usize
    requires { 71 ≤ length out.old }
    ensures { Wrote (refused_line n (card_place owner seq)) result out.old out.new }
{
    let number = put_text(b"REFUSED ", out, 0);
    let card = put_number(n, BLANK, out, number);
    let sequence = put_number(owner, BLANK, out, card);
    put_number(seq, NEWLINE, out, sequence)
}
