// The name of a card (RULES, "Names and numbers"): its owner's, a point, its number.
ghost use Rattle.std.specs.Prelude.{◌≡◌, ◌≤◌, length};
ghost use Rattle.keeper_card.specs.Naming.{in_space, card_shown, naming, told, show_into};
ghost use Rattle.keeper_card.specs.Parts.{AnswersOf, Answers, pointed};

use crate::ShowRefused;
use crate::bytes::digits;
use crate::entry_words::entry_word;

const NAME: usize = 9;

const POINT: u8 = b'.';

// A name, a point and a number.
fn put_card(name: &[u8], seq: u64, out: &mut [u8]) -> Result<usize, ShowRefused>
    requires { length name.now ≤ 9 }
    ensures { Answers (in_space (length out.old) (length (pointed name.now seq)) (pointed name.now seq)) result out.old out.new }
{
    let point = name.len();
    let end = point + 1 + digits(seq);
    if out.len() < end {
        return Err(ShowRefused::Space);
    }
    words_lists::put(name, out, 0);
    out[point] = POINT;
    words_names::put_number(seq, &mut out[point + 1..end]);
    Ok(end)
}

// A card of an image that the check accepts.
fn card_sound(image: &[u64], owner: u64, seq: u64, out: &mut [u8]) -> Result<usize, ShowRefused>
    ensures { AnswersOf image.now (card_shown owner seq (length out.old)) result out.old out.new }
{
    let mut name = [0u8; NAME];
    let n = words_names::name_of_word(entry_word(image, owner), &mut name);
    put_card(&name[..n], seq, out)
}

pub fn card(image: &[u64], owner: u64, seq: u64, out: &mut [u8]) -> Result<usize, ShowRefused>
    ensures answer { result ≡ told (naming image.now owner seq (length out.old)) }
    ensures space { out.new ≡ show_into (naming image.now owner seq (length out.old)) out.old }
{
    library_check::check(image)?;
    card_sound(image, owner, seq, out)
}
